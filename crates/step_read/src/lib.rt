// show and eager behind the checks of lengths and soundness: refusal 5.
#![tactic(auto)]

ghost use Rattle.std.specs.Prelude.{◌≡◌};
ghost use Rattle.asyncio.specs.declared.CallId.{CallId};
ghost use Rattle.machine.specs.Store.{Store};
ghost use Rattle.machine.specs.Machine.{shown};
ghost use Rattle.step_read.specs.Reads.{shown_of, ShowsChecked, EagerChecked};

use asyncio::{
    CoroutineState, Error, ExternalFutureState, GatherState, HeapId, Object, Objects, Value,
};
use exec_switch::answer::{Answer, Refusal};
use queue::ReadyQueue;
use rows::tables::{load_header, load_object};
use scheduler::cleanup::can_await_eagerly;

// What a read of an object shows. The places of a gather are `count` from `first` on; bit i of `open_places` says that place i is open.
#[derive(Clone, Copy, PartialEq, Eq, Debug)]
pub enum Shown {
    Coroutine {
        state: CoroutineState,
        function: u32,
    },
    ExternalPending,
    ExternalResolved(Value),
    ExternalFailed(Error),
    GatherPending,
    GatherAwaited {
        first: u16,
        count: u16,
        open_places: u32,
    },
    GatherCompleted {
        first: u16,
        count: u16,
    },
    GatherFailed(Error),
    Nothing,
}

#[tactic(auto, unfolding(machine::specs::Machine::shown))]
fn show_external(state: ExternalFutureState) -> Shown
    ensures { (s : Store) (c : CallId) → shown_of s.places result ≡ shown s (Object.ExternalFuture c state) }
{
    match state {
        ExternalFutureState::Pending { .. } => Shown::ExternalPending,
        ExternalFutureState::Resolved(v) => Shown::ExternalResolved(v),
        ExternalFutureState::Failed(e) => Shown::ExternalFailed(e),
    }
}

#[tactic(auto, unfolding(machine::specs::Machine::shown))]
fn show_gather(first: u16, count: u16, state: GatherState) -> Shown
    ensures { (s : Store) → shown_of s.places result ≡ shown s (Object.GatherFuture first count state) }
{
    match state {
        GatherState::Pending => Shown::GatherPending,
        GatherState::Awaited { open_places, .. } => Shown::GatherAwaited {
            first,
            count,
            open_places,
        },
        GatherState::Completed => Shown::GatherCompleted { first, count },
        GatherState::Failed(e) => Shown::GatherFailed(e),
    }
}

#[tactic(auto, unfolding(machine::specs::Machine::shown))]
fn show_object(x: Object) -> Shown
    ensures { (s : Store) → shown_of s.places result ≡ shown s x }
{
    match x {
        Object::Unmade => Shown::Nothing,
        Object::Coroutine { function, state } => Shown::Coroutine { state, function },
        Object::ExternalFuture { state, .. } => show_external(state),
        Object::GatherFuture {
            first,
            count,
            state,
        } => show_gather(first, count, state),
    }
}

// What object `o` shows, or 5.
pub fn show(objects: &Objects, o: u16) -> Result<Shown, Refusal>
    ensures { ShowsChecked objects.now o result }
{
    if load_header(objects).made <= o {
        return Err(Refusal::Unknown);
    }
    Ok(show_object(load_object(objects, HeapId::new(o))))
}

// May the host answer a call at once?
pub fn eager(objects: &Objects, queue: &ReadyQueue) -> Answer
    ensures { EagerChecked objects.now queue.now result }
{
    Answer::Eager(can_await_eagerly(objects, queue))
}
