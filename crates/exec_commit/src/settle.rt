// The gathers of a commit: opened, settled, resumed, and failed when the commit fails.
ghost use Rattle.std.specs.Prelude.{◌≡◌, ◌<◌, ◌≤◌, length};
ghost use Rattle.asyncio.specs.Limits.{object_limit};
ghost use Rattle.asyncio.specs.Parts.{count_of};
ghost use Rattle.rows.specs.Tables.{object_at};
ghost use Rattle.machine.specs.Commit.{gives, with_state, set_gather, open_gather_commit, settle_gather_commit, resume_after_child};
ghost use Rattle.exec_poll.specs.Polls.{poll_of, PollsOfObjects};
ghost use Rattle.exec_commit.specs.Steps.{frame};
ghost use Rattle.exec_commit.specs.Frames.{GathersFit, Unwinds};
ghost use Rattle.exec_commit.specs.Stack.{stack_of};
ghost use Rattle.contract.specs.Contract.{ChangesObjects, ChangesObjectsAndPlaces};

use crate::frames::Frames;
use crate::step::{fill_place, open_place};
use asyncio::{Awaiter, Error, GatherState, HeapId, Object, Objects, Places, Value};
use exec_poll::item::Poll;
use rows::tables::{load_object, store_object};
use scheduler_states::awaited::as_awaited;

// A gather with that state; any other object as it is.
#[tactic(auto, unfolding(machine::specs::Commit::with_state))]
fn with_state(o: Object, state: GatherState) -> Object
    ensures { result ≡ with_state o state }
{
    match o {
        Object::GatherFuture { first, count, .. } => Object::GatherFuture {
            first,
            count,
            state,
        },
        _ => o,
    }
}

// Gather `g` in that state. (Any other object is stored as it was read: the machine puts it too, and its words may change by that.)
fn set_gather(objects: &mut Objects, g: HeapId, state: GatherState)
    requires { g.0 < object_limit }
    ensures { ChangesObjects objects (λ s. set_gather s g.0 state) }
{
    let changed = with_state(load_object(objects, g), state);
    store_object(objects, g, changed);
}

// Gather `g` is awaited, with no place open yet.
#[tactic(auto, unfolding(machine::specs::Commit::open_gather_commit))]
pub(crate) fn open_gather_commit(objects: &mut Objects, g: HeapId, awaiter: Awaiter)
    requires { g.0 < object_limit }
    ensures { ChangesObjects objects (λ s. open_gather_commit s g.0 awaiter) }
{
    set_gather(
        objects,
        g,
        GatherState::Awaited {
            awaiter,
            open_places: 0,
        },
    );
}

// Gather `g`, whose items are all stepped: completed where no place is open, the empty gather included.
pub(crate) fn settle_gather_commit(objects: &mut Objects, g: HeapId) -> Poll
    requires { g.0 < object_limit }
    ensures { PollsOfObjects objects (λ s. settle_gather_commit s g.0) result }
{
    let Some(w) = as_awaited(objects, g) else {
        return Poll::Pending;
    };
    if w.open_places != 0 {
        return Poll::Pending;
    }
    set_gather(objects, g, GatherState::Completed);
    Poll::Ready(Value::List(g))
}

// The nested gather in place `next` of gather `g` was settled: the place is filled or open.
pub(crate) fn resume_after_child(
    objects: &mut Objects,
    places: &mut Places,
    g: HeapId,
    next: usize,
    poll: Poll,
)
    requires { (g.0 < object_limit) × (next < count_of (object_at objects.old g.0)) }
    ensures { ChangesObjectsAndPlaces objects places
        (λ s. resume_after_child (frame g.0 next) (gives s (poll_of poll))) }
{
    let Some(w) = as_awaited(objects, g) else {
        return;
    };
    match poll {
        Poll::Ready(v) => fill_place(places, w, next, v),
        Poll::Raised(_) => {}
        Poll::Pending => open_place(objects, g, w, next),
    }
}

// An error marks every gather of the commit failed, the innermost first: `g`, then those that wait.
pub(crate) fn unwind_gather_commits(
    objects: &mut Objects,
    g: HeapId,
    mut waiting: Frames,
    error: Error,
)
    requires { (g.0 < object_limit) × (length (stack_of waiting) ≤ object_limit) × GathersFit (stack_of waiting) }
    ensures { Unwinds objects g.0 (stack_of waiting) error }
{
    set_gather(objects, g, GatherState::Failed(error));
    while let Some(frame) = waiting.pop() {
        set_gather(objects, frame.gather, GatherState::Failed(error));
    }
}
