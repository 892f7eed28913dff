// One item of a gather: what it gives at once, or that it is a gather that must be committed first.
ghost use Rattle.std.specs.Prelude.{◌≡◌, ◌<◌};
ghost use Rattle.asyncio.specs.Limits.{object_limit};
ghost use Rattle.asyncio.specs.Ranges.{PlacesFit};
ghost use Rattle.machine.specs.Store.{Store};
ghost use Rattle.machine.specs.Commit.{await_external, item_coroutine, item_gather};
ghost use Rattle.scheduler_states.specs.Awaited.{awaited_gather_of};
ghost use Rattle.exec_poll.specs.Polls.{with_item, itemed, item_at, item_here, PollsOfObjects, Polls, PollsItem, PollsItemOfPlaces};

use asyncio::{
    Awaiter, CallId, CoroutineState, Error, ExternalFutureState, GatherState, HeapId, Object,
    Objects, Places, Tasks, Value,
};
use queue::ReadyQueue;
use rows::tables::{load_object, store_object};
use scheduler::spawn::spawn;
use scheduler_states::awaited::AwaitedGather;
use scheduler_states::places::is_open;

// What an awaitable gives at once: a value, an error, or nothing yet.
// Kept: an enum of three cases; in Result<Option<Value>, Error> no name would say that None is an awaitable that waits.
#[derive(Clone, Copy, PartialEq, Eq, Debug)]
pub enum Poll {
    Ready(Value),
    Raised(Error),
    Pending,
}

// External `o` of that call and in that state: settled, or it takes the awaiter if it has none (await_external_future).
#[tactic(auto, unfolding(machine::specs::Commit::await_external))]
pub fn await_external(
    objects: &mut Objects,
    o: HeapId,
    call: CallId,
    state: ExternalFutureState,
    awaiter: Awaiter,
) -> Poll
    requires { o.0 < object_limit }
    ensures { PollsOfObjects objects
        (λ s. await_external s o.0 call state awaiter) result }
{
    match state {
        ExternalFutureState::Resolved(v) => Poll::Ready(v),
        ExternalFutureState::Failed(e) => Poll::Raised(e),
        ExternalFutureState::Pending {
            awaiter: old,
            stored,
        } => {
            if !old.is_nobody() {
                return Poll::Raised(Error::FutureReuse);
            }
            let state = ExternalFutureState::Pending { awaiter, stored };
            store_object(objects, o, Object::ExternalFuture { call, state });
            Poll::Pending
        }
    }
}

// Coroutine `o` in that state, an item of gather `g`: it is spawned, if it is new and no live task drives it.
fn item_coroutine(
    tasks: &mut Tasks,
    objects: &mut Objects,
    queue: &mut ReadyQueue,
    g: HeapId,
    o: HeapId,
    state: CoroutineState,
) -> Poll
    ensures { Polls tasks objects queue
        (λ s. item_coroutine s g.0 o.0 state) result }
{
    match state {
        CoroutineState::New => {
            if spawn(tasks, objects, queue, o, g) {
                return Poll::Pending;
            }
            Poll::Raised(Error::CoroutineReuse)
        }
        _ => Poll::Raised(Error::CoroutineReuse),
    }
}

// Gather `o` in that state: polled (poll_settled_gather), or none where it is pending, and so must be committed first.
#[tactic(auto, unfolding(machine::specs::Commit::item_gather))]
fn item_gather(o: HeapId, state: GatherState) -> Option<Poll>
    ensures { (s : Store) → with_item s result ≡ itemed s (item_gather s o.0 state) }
{
    match state {
        GatherState::Pending => None,
        GatherState::Awaited { .. } => Some(Poll::Raised(Error::GatherReuse)),
        GatherState::Completed => Some(Poll::Ready(Value::List(o))),
        GatherState::Failed(e) => Some(Poll::Raised(e)),
    }
}

// Object `o` as an item of gather `g`, where no open place of it names the object.
fn item_object(
    tasks: &mut Tasks,
    objects: &mut Objects,
    queue: &mut ReadyQueue,
    g: HeapId,
    o: HeapId,
) -> Option<Poll>
    requires { o.0 < object_limit }
    ensures { PollsItem tasks objects queue (λ s. item_here s g.0 o.0) result }
{
    match load_object(objects, o) {
        Object::Unmade => Some(Poll::Pending),
        Object::Coroutine { state, .. } => {
            Some(item_coroutine(tasks, objects, queue, g, o, state))
        }
        Object::ExternalFuture { call, state } => {
            let awaiter = Awaiter::GatherSlot {
                gather: g,
                source: o,
            };
            Some(await_external(objects, o, call, state, awaiter))
        }
        Object::GatherFuture { state, .. } => item_gather(o, state),
    }
}

// Object `o` as an item of gather `g`, which is `w`. An item that is open already gets another place and no second task. None:
// a nested gather that must be committed first.
pub fn item(
    tasks: &mut Tasks,
    objects: &mut Objects,
    places: &Places,
    queue: &mut ReadyQueue,
    g: HeapId,
    w: AwaitedGather,
    o: HeapId,
) -> Option<Poll>
    requires { PlacesFit w.first w.count × o.0 < object_limit }
    ensures { PollsItemOfPlaces tasks objects places.now queue
        (λ s. item_at s g.0 (awaited_gather_of w) o.0) result }
{
    if is_open(places, w.first, w.count, w.open_places, o) {
        return Some(Poll::Pending);
    }
    item_object(tasks, objects, queue, g, o)
}
