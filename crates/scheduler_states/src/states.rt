// The states of tasks: make_ready, is_blocked, block_current_on, and a task's removal.
ghost use Rattle.std.specs.Prelude.{◌≡◌, ◌<◌};
ghost use Rattle.asyncio.specs.Limits.{task_limit};
ghost use Rattle.asyncio.specs.States.{is_blocked};
ghost use Rattle.rows.specs.Tables.{task_at};
ghost use Rattle.queue.specs.Queue.{stood_at};
ghost use Rattle.machine.specs.Scheduler.{make_ready, remove_task};
ghost use Rattle.asyncio.specs.declared.TaskState.{TaskState};
ghost use Rattle.contract.specs.Contract.{ChangesTasks};
ghost use Rattle.scheduler_states.specs.States.{Restates, MakesReady};

use asyncio::{Awaiter, HeapId, Task, TaskId, TaskState, Tasks};
use queue::ReadyQueue;

// Task `t` in another state.
pub fn set_state(tasks: &mut Tasks, t: TaskId, state: TaskState)
    requires { t.0 < task_limit }
    ensures { Restates tasks t.0 state }
{
    let old = rows::tables::load_task(tasks, t);
    rows::tables::store_task(tasks, t, Task { state, ..old });
}

// Is task `t` blocked on an awaitable?
pub fn is_blocked(tasks: &Tasks, t: TaskId) -> bool
    requires { t.0 < task_limit }
    ensures { result ≡ is_blocked (task_at tasks.now t.0).state }
{
    rows::parts::state_at(tasks, t).is_blocked()
}

// Task `t` is given a value or an error. The caller puts it at the queue's back.
pub fn make_ready(tasks: &mut Tasks, t: TaskId, state: TaskState)
    requires { t.0 < task_limit }
    ensures { MakesReady tasks t.0 state }
{
    set_state(tasks, t, state);
}

// Task `t` waits for object `o`.
pub fn block_current_on(tasks: &mut Tasks, t: TaskId, o: HeapId)
    requires { t.0 < task_limit }
    ensures { Restates tasks t.0 (TaskState.Blocked o) }
{
    set_state(tasks, t, TaskState::Blocked(o));
}

// Task `t` is live no more, and not ready. Where it stood in the ready queue.
pub fn remove_task(tasks: &mut Tasks, queue: &mut ReadyQueue, t: TaskId) -> Option<usize>
    requires { t.0 < task_limit }
    ensures { ChangesTasks tasks queue.old queue.new (λ s. remove_task s t.0)
        × (result ≡ stood_at queue.old t.0) }
{
    let absent = Task {
        state: TaskState::Absent,
        awaiter: Awaiter::Nobody,
        coroutine: HeapId::new(0),
    };
    rows::tables::store_task(tasks, t, absent);
    queue.remove(t)
}
