// Starting a task, failing it and resuming the next call each other; at each failed start one live task less is left.
// The queue is lent: by value each level would hold several queues, and a sound chain of failures would end a thread of 2 MB.
ghost use Rattle.std.specs.Prelude.{◌≡◌, ◌<◌};
ghost use Rattle.asyncio.specs.Limits.{task_limit, object_limit};
ghost use Rattle.rows.specs.Tables.{object_at};
ghost use Rattle.exec_fill.specs.Delivered.{delivered};
ghost use Rattle.machine.specs.Events.{new_function, activate, start_task, handle_task_failure, resume_after_task_exit, resume_next};
ghost use Rattle.exec_switch.specs.Control.{function_of, FoundFits, SwitchesKeepingPlaces};

use crate::control::{Control, How, run, yield_control};
use asyncio::{CoroutineState, Error, HeapId, Object, Objects, TaskId, TaskState, Tasks};
use exec_deliver::climb::deliver_awaiter_failure;
use exec_deliver::task::queue_woken;
use queue::ReadyQueue;
use scheduler_states::states::remove_task;

#[tactic(auto, using(crate::proofs::NewFunction::no_new_function, crate::proofs::NewFunction::no_function_unless_new), unfolding(machine::specs::Events::new_function))]
fn new_function(objects: &Objects, c: HeapId) -> Option<u32>
    requires { c.0 < object_limit }
    ensures { result ≡ function_of (new_function (object_at objects.now c.0)) }
{
    match rows::tables::load_object(objects, c) {
        Object::Coroutine {
            function,
            state: CoroutineState::New,
        } => Some(function),
        _ => None,
    }
}

// A ready task runs on with what was delivered, or starts. No other is activated.
#[cycle(activate_task_handle_task_failure_resume_after_task_exit_start_task_switch_or_yield)]
fn activate_task(
    tasks: &mut Tasks,
    objects: &mut Objects,
    queue: &mut ReadyQueue,
    t: TaskId,
) -> Control
    requires { t.0 < task_limit }
    ensures { SwitchesKeepingPlaces tasks objects queue (λ s. activate s t.0) result }
{
    match rows::parts::state_at(tasks, t) {
        TaskState::Unstarted => start_task(tasks, objects, queue, t),
        TaskState::Woken(v) => run(tasks, objects, t, How::Value(v)),
        TaskState::Raised(e) => run(tasks, objects, t, How::Raised(e)),
        _ => yield_control(objects),
    }
}

// The first run of a task: a coroutine that is not new any more fails it.
#[cycle(activate_task_handle_task_failure_resume_after_task_exit_start_task_switch_or_yield)]
fn start_task(
    tasks: &mut Tasks,
    objects: &mut Objects,
    queue: &mut ReadyQueue,
    t: TaskId,
) -> Control
    requires { t.0 < task_limit }
    ensures { SwitchesKeepingPlaces tasks objects queue
        (λ s. start_task activate s t.0) result }
{
    let coroutine = rows::parts::coroutine_at(tasks, t);
    let Some(function) = new_function(objects, coroutine) else {
        return handle_task_failure(tasks, objects, queue, t, Error::CoroutineReuse);
    };
    rows::tables::store_object(
        objects,
        coroutine,
        Object::Coroutine {
            function,
            state: CoroutineState::Running,
        },
    );
    run(
        tasks,
        objects,
        t,
        How::Start {
            coroutine,
            function,
        },
    )
}

// The task's awaiter gets the error, and the task goes. Its coroutine keeps its state.
#[cycle(activate_task_handle_task_failure_resume_after_task_exit_start_task_switch_or_yield)]
pub fn handle_task_failure(
    tasks: &mut Tasks,
    objects: &mut Objects,
    queue: &mut ReadyQueue,
    t: TaskId,
    error: Error,
) -> Control
    requires { t.0 < task_limit }
    ensures { SwitchesKeepingPlaces tasks objects queue
        (λ s. handle_task_failure activate s t.0 error) result }
{
    let awaiter = rows::parts::task_awaiter_at(tasks, t);
    let woken = deliver_awaiter_failure(tasks, objects, awaiter, error);
    queue_woken(queue, woken);
    remove_task(tasks, queue, t);
    resume_after_task_exit(tasks, objects, queue, woken)
}

// The task that an exit woke goes ahead of the queue.
#[cycle(activate_task_handle_task_failure_resume_after_task_exit_start_task_switch_or_yield)]
pub fn resume_after_task_exit(
    tasks: &mut Tasks,
    objects: &mut Objects,
    queue: &mut ReadyQueue,
    woken: Option<TaskId>,
) -> Control
    requires { FoundFits woken }
    ensures { SwitchesKeepingPlaces tasks objects queue
        (λ s. resume_after_task_exit activate (delivered s woken)) result }
{
    let Some(t) = woken else {
        return switch_or_yield(tasks, objects, queue);
    };
    queue.remove(t);
    activate_task(tasks, objects, queue, t)
}

// The task at the queue's front, or the host.
#[cycle(activate_task_handle_task_failure_resume_after_task_exit_start_task_switch_or_yield)]
pub fn switch_or_yield(tasks: &mut Tasks, objects: &mut Objects, queue: &mut ReadyQueue) -> Control
    ensures { SwitchesKeepingPlaces tasks objects queue
        (λ s. resume_next activate s) result }
{
    if queue.len == 0 {
        return yield_control(objects);
    }
    let t = queue.front();
    queue.pop_front();
    activate_task(tasks, objects, queue, t)
}
