// Clause 5: queue entries are distinct, live, unblocked and none is running.
ghost use Rattle.std.specs.Prelude.{◌≡◌, ◌≤◌, take};
ghost use Rattle.asyncio.specs.Limits.{task_limit};
ghost use Rattle.rows.specs.Slices.{task_in};
ghost use Rattle.machine.specs.Sound.{queue_ready};

use asyncio::{TASKS, TaskId, Tasks};
use queue::ReadyQueue;
use rows::parts::state_at;

// Each entry is a task below the next number, ready, and not seen before.
pub fn queue_ready(queue: &ReadyQueue, next: u16, tasks: &Tasks) -> bool
    requires { (queue.now.len ≤ task_limit) × (next ≤ task_limit) }
    ensures { result ≡ queue_ready next (task_in tasks) (take queue.now.len queue.now.ids) }
{
    let mut seen = [false; TASKS];
    for &t in &queue.ids[..queue.len] {
        if next <= t || seen[t as usize] || !state_at(tasks, TaskId(t)).is_ready() {
            return false;
        }
        seen[t as usize] = true;
    }
    true
}
