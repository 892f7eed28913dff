// Searches: the task of a coroutine (coroutine_to_task), the pending external of a call (pending_externals).
ghost use Rattle.std.specs.Prelude.{◌≡◌, ◌<◌, ◌≤◌};
ghost use Rattle.asyncio.specs.Limits.{task_limit, object_limit};
ghost use Rattle.rows.specs.Tables.{task_at};
ghost use Rattle.machine.specs.Scheduler.{is_task_of, task_of_in, is_call, pending_external_in};
ghost use Rattle.scheduler.specs.Search.{found_task, found_object};

use crate::skip::{is_pending, skip_other_calls};
use asyncio::{HeapId, Objects, TaskId, Tasks};

// Does task `t` live and drive object `c`?
fn is_task_of(tasks: &Tasks, t: TaskId, c: HeapId) -> bool
    requires { t.0 < task_limit }
    ensures { result ≡ is_task_of c.0 (task_at tasks.now t.0) }
{
    rows::parts::state_at(tasks, t).is_live() && rows::parts::coroutine_at(tasks, t) == c
}

// The live spawned task below `next` that drives object `c`.
pub(crate) fn task_of(tasks: &Tasks, next: u16, c: HeapId) -> Option<TaskId>
    requires { next ≤ task_limit }
    ensures { result ≡ found_task (task_of_in tasks.now next c.0) }
{
    for t in 1..next {
        let id = TaskId::new(t);
        if is_task_of(tasks, id, c) {
            return Some(id);
        }
    }
    None
}

// Is object `o` a pending external of that call?
pub(crate) fn is_call(objects: &Objects, call: u32, o: HeapId) -> bool
    requires { o.0 < object_limit }
    ensures { result ≡ is_call objects.now call o.0 }
{
    is_pending(objects, o) && rows::parts::call_at(objects, o).word() == u64::from(call)
}

// The pending external of a call. It only searches: nothing is taken out, and the store stays. The number is compared whole, so that
// call 65,536 + n is not call n.
pub fn take_pending_external(objects: &Objects, call: u32) -> Option<HeapId>
    ensures { result ≡ found_object (pending_external_in objects.now call) }
{
    let made = rows::tables::load_header(objects).made;
    for o in skip_other_calls(objects, call, made)..made {
        let id = HeapId::new(o);
        if is_call(objects, call, id) {
            return Some(id);
        }
    }
    None
}
