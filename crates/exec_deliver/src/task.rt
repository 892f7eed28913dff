// To a task: deliver_value_to_task, and the end of deliver_awaiter_failure.
ghost use Rattle.std.specs.Prelude.{◌≡◌, ◌<◌};
ghost use Rattle.asyncio.specs.Limits.{task_limit};
ghost use Rattle.machine.specs.Delivery.{deliver_to_task};
ghost use Rattle.exec_deliver.specs.Delivers.{queued, DeliversOfTasks};

use asyncio::{TaskId, TaskState, Tasks};
use queue::ReadyQueue;
use scheduler_states::states::{is_blocked, make_ready};

// A blocked task becomes ready with a value or an error: it was woken, and the caller queues it. Any other receives nothing.
pub(crate) fn deliver_to_task(tasks: &mut Tasks, t: TaskId, state: TaskState) -> Option<TaskId>
    requires { t.0 < task_limit }
    ensures { DeliversOfTasks tasks (λ s. deliver_to_task s t.0 state) result }
{
    if !is_blocked(tasks, t) {
        return None;
    }
    make_ready(tasks, t, state);
    Some(t)
}

// The task that a delivery woke goes to the back of a lent queue.
pub fn queue_woken(queue: &mut ReadyQueue, woken: Option<TaskId>)
    ensures { queue.new ≡ queued queue.old woken }
{
    if let Some(t) = woken {
        queue.push_back(t);
    }
}
