// Clause 7: a coroutine has at most one live task.
ghost use Rattle.std.specs.Prelude.{◌≡◌, ◌≤◌};
ghost use Rattle.asyncio.specs.Limits.{task_limit};
ghost use Rattle.rows.specs.Slices.{task_in};
ghost use Rattle.machine.specs.Sound.{one_task};

use asyncio::{OBJECTS, TaskId, Tasks};
use rows::parts::{coroutine_at, state_at};

// The coroutine of each live spawned task is not seen before. Main has none.
pub fn one_task(next: u16, tasks: &Tasks) -> bool
    requires { next ≤ task_limit }
    ensures { result ≡ one_task next (task_in tasks) }
{
    let mut seen = [false; OBJECTS];
    for t in 1..next {
        if state_at(tasks, TaskId(t)).is_live() {
            let k = coroutine_at(tasks, TaskId(t)).0 as usize;
            if seen[k] {
                return false;
            }
            seen[k] = true;
        }
    }
    true
}
