// can_await_eagerly, and cleanup at the session's end.
ghost use Rattle.std.specs.Prelude.{◌≡◌, ◌<◌, ◌≤◌};
ghost use Rattle.asyncio.specs.Limits.{task_limit};
ghost use Rattle.machine.specs.Scheduler.{pending_calls_in};
ghost use Rattle.machine.specs.Machine.{is_empty, can_await_eagerly};
ghost use Rattle.scheduler.specs.Ends.{clear_one, clear_from, Cleans};
ghost use Rattle.contract.specs.Contract.{ReadsObjectsAndQueue};

use crate::skip::{is_pending, skip_not_pending};
use asyncio::{Awaiter, Header, HeapId, Moment, Objects, Task, TaskId, TaskState, Tasks};
use queue::ReadyQueue;

// Is no call pending?
pub fn no_call_pending(objects: &Objects) -> bool
    ensures { result ≡ is_empty (pending_calls_in objects.now) }
{
    let made = rows::tables::load_header(objects).made;
    for o in skip_not_pending(objects, made)..made {
        if is_pending(objects, HeapId::new(o)) {
            return false;
        }
    }
    true
}

// May a call be answered at once? Nothing is ready and no call is pending; after the session's end none is.
pub fn can_await_eagerly(objects: &Objects, queue: &ReadyQueue) -> bool
    ensures { ReadsObjectsAndQueue objects.now queue.now can_await_eagerly result }
{
    if queue.len != 0 {
        return false;
    }
    match rows::tables::load_header(objects).moment {
        Moment::Ended => true,
        _ => no_call_pending(objects),
    }
}

// Row `t` cleared, if it is a live task's.
fn clear_one(tasks: &mut Tasks, t: TaskId)
    requires { t.0 < task_limit }
    ensures { tasks.new ≡ clear_one tasks.old t.0 }
{
    if rows::parts::state_at(tasks, t).is_live() {
        let absent = Task {
            state: TaskState::Absent,
            awaiter: Awaiter::Nobody,
            coroutine: HeapId::new(0),
        };
        rows::tables::store_task(tasks, t, absent);
    }
}

// The rows of the live tasks below `next` cleared.
fn clear_tasks(tasks: &mut Tasks, next: u16)
    requires { next ≤ task_limit }
    ensures { tasks.new ≡ clear_from tasks.old 0 next }
{
    for t in 0..next {
        clear_one(tasks, TaskId::new(t));
    }
}

// The session ends: no task is left, and none is ready.
pub fn cleanup(tasks: &mut Tasks, objects: &mut Objects, queue: &mut ReadyQueue)
    ensures { Cleans tasks objects queue.new }
{
    let header = rows::tables::load_header(objects);
    clear_tasks(tasks, header.next);
    rows::tables::store_header(
        objects,
        Header {
            moment: Moment::Ended,
            ..header
        },
    );
    *queue = ReadyQueue::new();
}
