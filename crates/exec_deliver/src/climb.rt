// Up the gathers: deliver_awaiter_success, deliver_awaiter_failure. Kept as two loops: a failure takes no places, and its error goes on as it
// is; one loop over two closures would be longer than both.
ghost use Rattle.asyncio.specs.Ranges.{AwaiterFits};
ghost use Rattle.machine.specs.Delivery.{deliver_awaiter_success, deliver_awaiter_failure};
ghost use Rattle.exec_deliver.specs.Delivers.{Delivers, DeliversKeepingPlaces};

use crate::task::deliver_to_task;
use asyncio::{Awaiter, Error, Objects, Places, TaskId, TaskState, Tasks, Value};
use exec_fill::gather::{fail, resolve_child};

// Success climbs through each gather that it completes, and wakes the blocked task at the end: the task that was woken, whom the caller queues.
pub fn deliver_awaiter_success(
    tasks: &mut Tasks,
    objects: &mut Objects,
    places: &mut Places,
    awaiter: Awaiter,
    value: Value,
) -> Option<TaskId>
    requires { AwaiterFits awaiter }
    ensures { Delivers tasks objects places
        (λ s. deliver_awaiter_success s awaiter value) result }
{
    let mut to = awaiter;
    let mut given = value;
    loop {
        match to {
            Awaiter::Nobody => return None,
            Awaiter::Task(t) => return deliver_to_task(tasks, t, TaskState::Woken(given)),
            Awaiter::GatherSlot { gather, source } => {
                to = resolve_child(objects, places, gather, source, given)?;
                given = Value::List(gather);
            }
        }
    }
}

// Failure marks each awaited gather failed, climbs, and the blocked task at the end will raise it: the task that was woken, whom the caller queues.
pub fn deliver_awaiter_failure(
    tasks: &mut Tasks,
    objects: &mut Objects,
    awaiter: Awaiter,
    error: Error,
) -> Option<TaskId>
    requires { AwaiterFits awaiter }
    ensures { DeliversKeepingPlaces tasks objects
        (λ s. deliver_awaiter_failure s awaiter error) result }
{
    let mut to = awaiter;
    loop {
        match to {
            Awaiter::Nobody => return None,
            Awaiter::Task(t) => return deliver_to_task(tasks, t, TaskState::Raised(error)),
            Awaiter::GatherSlot { gather, .. } => to = fail(objects, gather, error)?,
        }
    }
}
