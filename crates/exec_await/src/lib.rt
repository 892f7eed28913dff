// Await, by the running task: exec_get_awaitable (async_exec.rs).
#![tactic(auto)]

ghost use Rattle.std.specs.Prelude.{◌<◌};
ghost use Rattle.asyncio.specs.Limits.{task_limit, object_limit};
ghost use Rattle.machine.specs.Events.{stays, go_on, await_coroutine, await_external_future, await_gather, exec_get_awaitable};
ghost use Rattle.exec_poll.specs.Polls.{poll_of};
ghost use Rattle.exec_switch.specs.Control.{how_of};
ghost use Rattle.exec_await.specs.Awaits.{AwaitsKeepingPlaces, AwaitsOfObjects, AwaitsOfNothing, Awaits};

use asyncio::{
    Awaiter, CallId, CoroutineState, Error, ExternalFutureState, GatherState, HeapId, Object,
    Objects, Places, TaskId, Tasks, Value,
};
use exec_commit::tree::commit_gather_tree;
use exec_poll::item::{Poll, await_external};
use exec_switch::control::{Control, How};
use exec_switch::cycle::switch_or_yield;
use queue::ReadyQueue;
use scheduler_states::states::block_current_on;

// Who has control after an await, and the number of commit steps.
#[derive(Clone, Copy, PartialEq, Eq, Debug)]
pub struct Awaited {
    pub control: Control,
    pub steps: u16,
}

// The task goes on at once.
#[tactic(auto, unfolding(machine::specs::Events::stays))]
fn stay(t: TaskId, how: How, steps: u16) -> Awaited
    ensures { AwaitsOfNothing (λ s. stays s t.0 (how_of how) steps) result }
{
    Awaited {
        control: Control::Runs { task: t, how },
        steps,
    }
}

// A value or an error is the task's own. Otherwise it blocks on object `o`, and another runs.
fn go_on(
    tasks: &mut Tasks,
    objects: &mut Objects,
    queue: &mut ReadyQueue,
    t: TaskId,
    o: HeapId,
    steps: u16,
    poll: Poll,
) -> Awaited
    requires { t.0 < task_limit }
    ensures { AwaitsKeepingPlaces tasks objects queue
        (λ s. go_on t.0 o.0 steps s (poll_of poll)) result }
{
    match poll {
        Poll::Ready(v) => stay(t, How::Value(v), steps),
        Poll::Raised(e) => stay(t, How::Raised(e), steps),
        Poll::Pending => {
            block_current_on(tasks, t, o);
            let control = switch_or_yield(tasks, objects, queue);
            Awaited { control, steps }
        }
    }
}

// A new coroutine runs inline.
fn await_coroutine(
    objects: &mut Objects,
    t: TaskId,
    o: HeapId,
    function: u32,
    state: CoroutineState,
) -> Awaited
    requires { o.0 < object_limit }
    ensures { AwaitsOfObjects objects
        (λ s. await_coroutine s t.0 o.0 function state) result }
{
    match state {
        CoroutineState::New => {
            rows::tables::store_object(
                objects,
                o,
                Object::Coroutine {
                    function,
                    state: CoroutineState::Running,
                },
            );
            stay(t, How::Inline(o), 0)
        }
        _ => stay(t, How::Raised(Error::CoroutineReuse), 0),
    }
}

// An external: its value, its error, or the task waits for it.
fn await_external_future(
    tasks: &mut Tasks,
    objects: &mut Objects,
    queue: &mut ReadyQueue,
    t: TaskId,
    o: HeapId,
    call: CallId,
    state: ExternalFutureState,
) -> Awaited
    requires { (t.0 < task_limit) × (o.0 < object_limit) }
    ensures { AwaitsKeepingPlaces tasks objects queue
        (λ s. await_external_future s t.0 o.0 call state) result }
{
    let poll = await_external(objects, o, call, state, Awaiter::Task(t));
    go_on(tasks, objects, queue, t, o, 0, poll)
}

// A pending gather is committed. A settled one gives what it has.
fn await_gather_future(
    tasks: &mut Tasks,
    objects: &mut Objects,
    places: &mut Places,
    queue: &mut ReadyQueue,
    t: TaskId,
    o: HeapId,
    state: GatherState,
) -> Awaited
    requires { (t.0 < task_limit) × (o.0 < object_limit) }
    ensures { Awaits tasks objects places queue
        (λ s. await_gather s t.0 o.0 state) result }
{
    match state {
        GatherState::Pending => {
            let committed = commit_gather_tree(tasks, objects, places, queue, o, Awaiter::Task(t));
            go_on(tasks, objects, queue, t, o, committed.steps, committed.poll)
        }
        GatherState::Awaited { .. } => stay(t, How::Raised(Error::GatherReuse), 0),
        GatherState::Completed => stay(t, How::Value(Value::List(o)), 0),
        GatherState::Failed(e) => stay(t, How::Raised(e), 0),
    }
}

// Task `t` awaits object `o`.
pub fn exec_get_awaitable(
    tasks: &mut Tasks,
    objects: &mut Objects,
    places: &mut Places,
    queue: &mut ReadyQueue,
    t: TaskId,
    o: HeapId,
) -> Awaited
    requires { (t.0 < task_limit) × (o.0 < object_limit) }
    ensures { Awaits tasks objects places queue
        (λ s. exec_get_awaitable s t.0 o.0) result }
{
    match rows::tables::load_object(objects, o) {
        Object::Unmade => Awaited {
            control: Control::Waits,
            steps: 0,
        },
        Object::Coroutine { function, state } => await_coroutine(objects, t, o, function, state),
        Object::ExternalFuture { call, state } => {
            await_external_future(tasks, objects, queue, t, o, call, state)
        }
        Object::GatherFuture { state, .. } => {
            await_gather_future(tasks, objects, places, queue, t, o, state)
        }
    }
}
