// spawn: a task for a coroutine, one at a time.
ghost use Rattle.std.specs.Prelude.{◌<◌};
ghost use Rattle.asyncio.specs.Limits.{task_limit};
ghost use Rattle.scheduler.specs.Spawn.{SpawnsTaskAs, SpawnsTask};

use crate::tasks::task_of;
use asyncio::{Awaiter, Header, HeapId, Objects, TASKS, Task, TaskId, TaskState, Tasks};
use queue::ReadyQueue;

const LIMIT: u16 = TASKS as u16;

// Task `header.next` is spawned: ready and not yet run, its result goes to the places of gather `g` that name coroutine `c`.
fn spawn_as(
    tasks: &mut Tasks,
    objects: &mut Objects,
    queue: &mut ReadyQueue,
    header: Header,
    c: HeapId,
    g: HeapId,
)
    requires { header.next < task_limit }
    ensures { SpawnsTaskAs tasks objects queue header c.0 g.0 }
{
    let t = TaskId::new(header.next);
    let task = Task {
        state: TaskState::Unstarted,
        awaiter: Awaiter::GatherSlot {
            gather: g,
            source: c,
        },
        coroutine: c,
    };
    rows::tables::store_task(tasks, t, task);
    rows::tables::store_header(
        objects,
        Header {
            next: header.next + 1,
            ..header
        },
    );
    queue.push_back(t);
}

// Whether a task was spawned: none where the coroutine already has a live task, or no number is left.
pub fn spawn(
    tasks: &mut Tasks,
    objects: &mut Objects,
    queue: &mut ReadyQueue,
    c: HeapId,
    g: HeapId,
) -> bool
    ensures { SpawnsTask tasks objects queue c.0 g.0 result }
{
    let header = rows::tables::load_header(objects);
    if task_of(tasks, header.next, c).is_some() || LIMIT <= header.next {
        return false;
    }
    spawn_as(tasks, objects, queue, header, c, g);
    true
}
