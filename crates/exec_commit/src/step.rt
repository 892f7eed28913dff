// The items of one gather, left to right: step_gather_commit.
ghost use Rattle.std.specs.Prelude.{◌≡◌, ◌<◌, ◌+◌};
ghost use Rattle.asyncio.specs.Limits.{object_limit, item_limit, place_limit};
ghost use Rattle.asyncio.specs.Parts.{count_of};
ghost use Rattle.rows.specs.Tables.{object_at};
ghost use Rattle.machine.specs.Commit.{open_place, fill_place, put_polled, step_gather_commit};
ghost use Rattle.scheduler_states.specs.Awaited.{awaited_gather_of};
ghost use Rattle.exec_poll.specs.Polls.{poll_of};
ghost use Rattle.exec_commit.specs.Steps.{step_at, frame, StepsPlace, StepsTo, StopsAt};
ghost use Rattle.contract.specs.Contract.{ChangesObjects, ChangesPlaces};

use asyncio::{Error, GatherState, HeapId, Objects, Place, Places, Tasks, Value};
use exec_poll::item::{Poll, item};
use queue::ReadyQueue;
use rows::parts::{count_at, item_at};
use rows::tables::store_place;
use scheduler_states::awaited::{AwaitedGather, as_awaited, put_gather};

// Where the walk through a gather's items stopped: at the end, or where the gather is not awaited; at a nested gather in place `at`; at an
// error.
#[derive(Clone, Copy, PartialEq, Eq, Debug)]
pub enum Stop {
    End,
    Nested { at: u16, item: HeapId },
    Raised(Error),
}

// Place `i` of gather `g`, which is `w`, is open.
pub(crate) fn open_place(objects: &mut Objects, g: HeapId, w: AwaitedGather, i: usize)
    requires { (g.0 < object_limit) × (i < item_limit) }
    ensures { ChangesObjects objects (λ s. open_place s g.0 (awaited_gather_of w) i) }
{
    let state = GatherState::Awaited {
        awaiter: w.awaiter,
        open_places: w.open_places | (1 << i),
    };
    put_gather(objects, g, w, state);
}

// Place `i` of the gather `w` has a value.
pub(crate) fn fill_place(places: &mut Places, w: AwaitedGather, i: usize, value: Value)
    requires { w.first + i < place_limit }
    ensures { ChangesPlaces places (λ s. fill_place s (awaited_gather_of w) i value) }
{
    let p = w.first as usize + i;
    let item = item_at(places, p);
    let place = Place {
        item,
        result: Some(value),
    };
    store_place(places, p, place);
}

// What the item of place `i` gave is put there; an error stops the walk.
fn put_polled(
    objects: &mut Objects,
    places: &mut Places,
    g: HeapId,
    w: AwaitedGather,
    i: usize,
    poll: Poll,
) -> Option<Stop>
    requires { (g.0 < object_limit) × (i < item_limit) × (w.first + i < place_limit) }
    ensures { StepsPlace objects places
        (λ s go. put_polled g.0 (awaited_gather_of w) i s (poll_of poll) go) result }
{
    match poll {
        Poll::Ready(v) => {
            fill_place(places, w, i, v);
            None
        }
        Poll::Raised(e) => Some(Stop::Raised(e)),
        Poll::Pending => {
            open_place(objects, g, w, i);
            None
        }
    }
}

// The item in place `i` of gather `g`: where the walk stops there, if it does.
fn step_item(
    tasks: &mut Tasks,
    objects: &mut Objects,
    places: &mut Places,
    queue: &mut ReadyQueue,
    g: HeapId,
    i: u16,
) -> Option<Stop>
    requires { g.0 < object_limit × i < count_of (object_at objects.old g.0) }
    ensures { StepsTo tasks objects places queue
        (λ s go. step_at s g.0 i go) result }
{
    let Some(w) = as_awaited(objects, g) else {
        return Some(Stop::End);
    };
    let o = item_at(places, w.first as usize + i as usize);
    let Some(poll) = item(tasks, objects, places, queue, g, w, o) else {
        return Some(Stop::Nested { at: i, item: o });
    };
    put_polled(objects, places, g, w, i as usize, poll)
}

// The items of gather `g` from place `next` on, left to right, up to the end, a nested gather that must be committed first, or an error.
pub(crate) fn step_gather_commit(
    tasks: &mut Tasks,
    objects: &mut Objects,
    places: &mut Places,
    queue: &mut ReadyQueue,
    g: HeapId,
    next: u16,
) -> Stop
    requires { g.0 < object_limit }
    ensures { StopsAt tasks objects places queue
        (λ s. step_gather_commit s (frame g.0 next)) result }
{
    let count = count_at(objects, g);
    for i in next..count {
        if let Some(stop) = step_item(tasks, objects, places, queue, g, i) {
            return stop;
        }
    }
    Stop::End
}
