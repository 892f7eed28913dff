// Making: coroutines, externals and gathers. Objects are numbered from 0 in the order of their making.
ghost use Rattle.std.specs.Prelude.{◌≡◌, ◌≤◌, ◌+◌, length};
ghost use Rattle.asyncio.specs.Limits.{item_limit, place_limit};
ghost use Rattle.rows.specs.Tables.{header_at};
ghost use Rattle.machine.specs.Store.{set_calls, add_object};
ghost use Rattle.machine.specs.Events.{make_coroutine, make_pending, make_settled, put_items, make_gather};
ghost use Rattle.contract.specs.Contract.{ChangesObjects, ChangesPlaces};
ghost use Rattle.exec_futures.specs.Making.{MakesObject, MakesGather, HasCall, HasPlaces, HasRoom};

use asyncio::{
    Awaiter, CallId, CoroutineState, ExternalFutureState, GatherState, Header, HeapId, Object,
    Objects, Place, Places, Value,
};

// An object at the end, and `n` places given to it.
fn add_object(objects: &mut Objects, x: Object, n: u16) -> HeapId
    requires { HasRoom objects.old × (n ≤ item_limit) }
    ensures { MakesObject objects (λ s. add_object s x n) result }
{
    let header = rows::tables::load_header(objects);
    let o = HeapId::new(header.made);
    rows::tables::store_header(
        objects,
        Header {
            made: header.made + 1,
            used: header.used + n,
            ..header
        },
    );
    rows::tables::store_object(objects, o, x);
    o
}

// The next call's number is handed out.
pub fn allocate_call_id(objects: &mut Objects) -> CallId
    requires { HasCall objects.old }
    ensures { (result.0 ≡ (header_at objects.old).calls) × ChangesObjects objects
        (λ s. set_calls s (result.0 + 1)) }
{
    let header = rows::tables::load_header(objects);
    rows::tables::store_header(
        objects,
        Header {
            calls: header.calls + 1,
            ..header
        },
    );
    CallId::new(header.calls)
}

// A new coroutine of a function.
#[tactic(auto, unfolding(machine::specs::Events::make_coroutine))]
pub fn make_coroutine(objects: &mut Objects, function: u32) -> HeapId
    requires { HasRoom objects.old }
    ensures { MakesObject objects (λ s. make_coroutine s function) result }
{
    let x = Object::Coroutine {
        function,
        state: CoroutineState::New,
    };
    add_object(objects, x, 0)
}

// An external of a call, with a stored result or none (add_pending_call, add_pending_sleep).
#[tactic(auto, unfolding(machine::specs::Events::make_pending))]
pub fn push_pending_future(objects: &mut Objects, call: CallId, stored: Option<Value>) -> HeapId
    requires { HasRoom objects.old }
    ensures { MakesObject objects (λ s. make_pending s call.0 stored) result }
{
    let x = Object::ExternalFuture {
        call,
        state: ExternalFutureState::Pending {
            awaiter: Awaiter::Nobody,
            stored,
        },
    };
    add_object(objects, x, 0)
}

// An external that has its value already. It takes a call number too.
pub fn settled_awaitable(objects: &mut Objects, value: Value) -> HeapId
    requires { HasRoom objects.old × HasCall objects.old }
    ensures { MakesObject objects (λ s. make_settled s value) result }
{
    let call = allocate_call_id(objects);
    let x = Object::ExternalFuture {
        call,
        state: ExternalFutureState::Resolved(value),
    };
    add_object(objects, x, 0)
}

// The items in the places from `first` on.
fn put_items(places: &mut Places, first: usize, items: &[u16])
    requires { first + length items.now ≤ place_limit }
    ensures { ChangesPlaces places (λ s. put_items s first items.now) }
{
    for (i, &item) in items.iter().enumerate() {
        let place = Place {
            item: HeapId::new(item),
            result: None,
        };
        rows::tables::store_place(places, first + i, place);
    }
}

// A gather of the items, not committed.
pub fn make_gather(objects: &mut Objects, places: &mut Places, items: &[u16]) -> HeapId
    requires { HasRoom objects.old × (length items.now ≤ item_limit) × HasPlaces objects.old (length items.now) }
    ensures { MakesGather objects places
        (λ s. make_gather s items.now) result }
{
    let first = rows::tables::load_header(objects).used;
    let count = items.len() as u16;
    put_items(places, first as usize, items);
    let x = Object::GatherFuture {
        first,
        count,
        state: GatherState::Pending,
    };
    add_object(objects, x, count)
}
