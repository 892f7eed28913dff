// The end of a task and of main: handle_task_completion; resume_with_resolved_futures (async_exec.rs).
#![tactic(auto)]

ghost use Rattle.std.specs.Prelude.{◌≡◌, ◌<◌};
ghost use Rattle.asyncio.specs.Limits.{task_limit, object_limit};
ghost use Rattle.rows.specs.Tables.{object_at, object_put};
ghost use Rattle.machine.specs.Events.{completed, handle_task_completion};
ghost use Rattle.machine.specs.Machine.{task_completes, task_fails, resume_with_resolved_futures};
ghost use Rattle.exec_switch.specs.Answer.{Answers, AnswersKeepingPlaces};
ghost use Rattle.exec_ends.specs.Ends.{Switches};

use asyncio::{CoroutineState, Error, HeapId, Object, Objects, Places, TaskId, Tasks, Value};
use exec_deliver::climb::deliver_awaiter_success;
use exec_deliver::task::queue_woken;
use exec_switch::answer::Answer;
use exec_switch::control::Control;
use exec_switch::cycle::{handle_task_failure, resume_after_task_exit, switch_or_yield};
use queue::ReadyQueue;
use scheduler::cleanup::{cleanup, no_call_pending};
use scheduler_states::states::remove_task;

// A coroutine that has completed. Any other object stays.
#[tactic(auto, unfolding(machine::specs::Events::completed))]
fn completed(x: Object) -> Object
    ensures { result ≡ completed x }
{
    match x {
        Object::Coroutine { function, .. } => Object::Coroutine {
            function,
            state: CoroutineState::Completed,
        },
        _ => x,
    }
}

// The coroutine of a task that completed.
fn complete_coroutine(objects: &mut Objects, c: HeapId)
    requires { c.0 < object_limit }
    ensures { objects.new ≡ object_put objects.old c.0 (completed (object_at objects.old c.0)) }
{
    let x = rows::tables::load_object(objects, c);
    rows::tables::store_object(objects, c, completed(x));
}

// The task's coroutine is completed, the task goes, and its awaiter gets the value. The queue is lent.
fn handle_task_completion(
    tasks: &mut Tasks,
    objects: &mut Objects,
    places: &mut Places,
    queue: &mut ReadyQueue,
    t: TaskId,
    value: Value,
) -> Control
    requires { t.0 < task_limit }
    ensures { Switches tasks objects places queue
        (λ s. handle_task_completion s t.0 value) result }
{
    let task = rows::tables::load_task(tasks, t);
    complete_coroutine(objects, task.coroutine);
    remove_task(tasks, queue, t);
    let woken = deliver_awaiter_success(tasks, objects, places, task.awaiter, value);
    queue_woken(queue, woken);
    resume_after_task_exit(tasks, objects, queue, woken)
}

// Task `t` completes. Main's end is the session's.
pub fn complete(
    tasks: &mut Tasks,
    objects: &mut Objects,
    places: &mut Places,
    queue: &mut ReadyQueue,
    t: TaskId,
    value: Value,
) -> Answer
    requires { t.0 < task_limit }
    ensures { Answers tasks objects places queue
        (λ s. task_completes s t.0 value) result }
{
    if t.is_main() {
        cleanup(tasks, objects, queue);
        return Answer::Finished(value);
    }
    Answer::Switched(handle_task_completion(tasks, objects, places, queue, t, value))
}

// Task `t` fails. Main's end is the session's.
// Kept beside `complete`: it takes no places, and its clause holds whatever they are (AnswersKeepingPlaces).
pub fn fail(
    tasks: &mut Tasks,
    objects: &mut Objects,
    queue: &mut ReadyQueue,
    t: TaskId,
    error: Error,
) -> Answer
    requires { t.0 < task_limit }
    ensures { AnswersKeepingPlaces tasks objects queue
        (λ s. task_fails s t.0 error) result }
{
    if t.is_main() {
        cleanup(tasks, objects, queue);
        return Answer::FinishedError(error);
    }
    Answer::Switched(handle_task_failure(tasks, objects, queue, t, error))
}

// The next ready task runs on. Where none is ready nothing changes: the wait is repeated, or no call is pending.
pub fn resume_with_resolved_futures(
    tasks: &mut Tasks,
    objects: &mut Objects,
    queue: &mut ReadyQueue,
) -> Answer
    ensures { AnswersKeepingPlaces tasks objects queue resume_with_resolved_futures result }
{
    if 0 < queue.len {
        return Answer::Switched(switch_or_yield(tasks, objects, queue));
    }
    if no_call_pending(objects) {
        return Answer::Stalled;
    }
    Answer::Switched(Control::Waits)
}
