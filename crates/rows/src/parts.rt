// One part of a row, read from its own words: the same as that part of the whole row, at the cost of the words it needs.
ghost use Rattle.std.specs.Prelude.{◌≡◌, ◌<◌};
ghost use Rattle.asyncio.specs.Limits.{task_limit, object_limit, place_limit};
ghost use Rattle.asyncio.specs.Kinds.{kind};
ghost use Rattle.asyncio.specs.Parts.{awaiter_of, call_of, first_of, count_of, open_of};
ghost use Rattle.rows.specs.Tables.{object_start};
ghost use Rattle.rows.specs.Slices.{task_in, object_in, place_in};

use asyncio::words::{to_awaiter, to_count, to_first, to_kind, to_option, to_state, to_u32};
use asyncio::{Awaiter, CallId, HeapId, Kind, Objects, Places, TaskId, TaskState, Tasks, Value};

// ---- objects

// Where its row stands.
fn object_start(o: HeapId) -> usize
    ensures { result ≡ object_start o.0 }
{
    o.0 as usize * 8 + 8
}

// Its sort and state.
pub fn kind_at(objects: &Objects, o: HeapId) -> Kind
    requires { o.0 < object_limit }
    ensures { result ≡ kind (object_in objects o.0) }
{
    to_kind(objects[object_start(o)])
}

// The awaiter of a pending external or an awaited gather, else nobody.
pub fn awaiter_at(objects: &Objects, o: HeapId) -> Awaiter
    requires { o.0 < object_limit }
    ensures { result ≡ awaiter_of (object_in objects o.0) }
{
    let at = object_start(o);
    if to_kind(objects[at]).has_awaiter() {
        return to_awaiter(objects[at + 1], objects[at + 2], objects[at + 3]);
    }
    Awaiter::Nobody
}

// The call of an external, else 0.
pub fn call_at(objects: &Objects, o: HeapId) -> CallId
    requires { o.0 < object_limit }
    ensures { result ≡ call_of (object_in objects o.0) }
{
    let at = object_start(o);
    if to_kind(objects[at]).is_external() {
        return CallId::from_word(objects[at + 4]);
    }
    CallId::new(0)
}

// The first place of a gather, else 0.
pub fn first_at(objects: &Objects, o: HeapId) -> u16
    requires { o.0 < object_limit }
    ensures { result ≡ first_of (object_in objects o.0) }
{
    let at = object_start(o);
    if to_kind(objects[at]).is_gather() {
        return to_first(objects[at + 4]);
    }
    0
}

// The number of places of a gather, else 0.
pub fn count_at(objects: &Objects, o: HeapId) -> u16
    requires { o.0 < object_limit }
    ensures { result ≡ count_of (object_in objects o.0) }
{
    let at = object_start(o);
    if to_kind(objects[at]).is_gather() {
        return to_count(to_first(objects[at + 4]), objects[at + 5]);
    }
    0
}

// The open places of an awaited gather, else 0.
pub fn open_at(objects: &Objects, o: HeapId) -> u32
    requires { o.0 < object_limit }
    ensures { result ≡ open_of (object_in objects o.0) }
{
    let at = object_start(o);
    if to_kind(objects[at]).is_awaited() {
        return to_u32(objects[at + 6]);
    }
    0
}

// ---- tasks

pub fn state_at(tasks: &Tasks, t: TaskId) -> TaskState
    requires { t.0 < task_limit }
    ensures { result ≡ (task_in tasks t.0).state }
{
    let at = t.0 as usize * 8;
    to_state(tasks[at], tasks[at + 5], tasks[at + 6])
}

pub fn task_awaiter_at(tasks: &Tasks, t: TaskId) -> Awaiter
    requires { t.0 < task_limit }
    ensures { result ≡ (task_in tasks t.0).awaiter }
{
    let at = t.0 as usize * 8;
    to_awaiter(tasks[at + 1], tasks[at + 2], tasks[at + 3])
}

pub fn coroutine_at(tasks: &Tasks, t: TaskId) -> HeapId
    requires { t.0 < task_limit }
    ensures { result ≡ (task_in tasks t.0).coroutine }
{
    HeapId::from_word(tasks[t.0 as usize * 8 + 4])
}

// ---- places

pub fn item_at(places: &Places, p: usize) -> HeapId
    requires { p < place_limit }
    ensures { result ≡ (place_in places p).item }
{
    HeapId::from_word(places[p * 4])
}

pub fn result_at(places: &Places, p: usize) -> Option<Value>
    requires { p < place_limit }
    ensures { result ≡ (place_in places p).result }
{
    let at = p * 4;
    to_option(places[at + 1], places[at + 2])
}
