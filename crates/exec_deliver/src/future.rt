// From an external: resolve_future, fail_future.
ghost use Rattle.std.specs.Prelude.{◌<◌};
ghost use Rattle.asyncio.specs.Limits.{object_limit};
ghost use Rattle.machine.specs.Delivery.{resolve_future, fail_future};
ghost use Rattle.exec_deliver.specs.Futures.{resolve_at, fail_at};
ghost use Rattle.exec_deliver.specs.Delivers.{Wakes, WakesKeepingPlaces};

use crate::climb::{deliver_awaiter_failure, deliver_awaiter_success};
use crate::pending::as_pending;
use asyncio::{Error, ExternalFutureState, HeapId, Object, Objects, Places, TaskId, Tasks, Value};
use rows::tables::store_object;
use scheduler::tasks::take_pending_external;

// Object `o`, if it is a pending external, is resolved, and its awaiter served: the task that was woken. A stored result replaces the
// host's value.
fn resolve_at(
    tasks: &mut Tasks,
    objects: &mut Objects,
    places: &mut Places,
    o: HeapId,
    value: Value,
) -> Option<TaskId>
    requires { o.0 < object_limit }
    ensures { Wakes tasks objects places (λ s. resolve_at s o.0 value) result }
{
    let p = as_pending(objects, o)?;
    let v = p.stored.unwrap_or(value);
    let resolved = Object::ExternalFuture {
        call: p.call,
        state: ExternalFutureState::Resolved(v),
    };
    store_object(objects, o, resolved);
    deliver_awaiter_success(tasks, objects, places, p.awaiter, v)
}

// The task that the call's end woke, whom the caller queues. A call that is not pending is ignored.
pub fn resolve_future(
    tasks: &mut Tasks,
    objects: &mut Objects,
    places: &mut Places,
    call: u32,
    value: Value,
) -> Option<TaskId>
    ensures { Wakes tasks objects places
        (λ s. resolve_future s call value) result }
{
    let o = take_pending_external(objects, call)?;
    resolve_at(tasks, objects, places, o, value)
}

// Object `o`, if it is a pending external, has failed, and its awaiter is served: the task that was woken. A stored result is dropped.
fn fail_at(tasks: &mut Tasks, objects: &mut Objects, o: HeapId, error: Error) -> Option<TaskId>
    requires { o.0 < object_limit }
    ensures { WakesKeepingPlaces tasks objects
        (λ s. fail_at s o.0 error) result }
{
    let p = as_pending(objects, o)?;
    let failed = Object::ExternalFuture {
        call: p.call,
        state: ExternalFutureState::Failed(error),
    };
    store_object(objects, o, failed);
    deliver_awaiter_failure(tasks, objects, p.awaiter, error)
}

// The task that the call's end woke, whom the caller queues. A call that is not pending is ignored.
pub fn fail_future(
    tasks: &mut Tasks,
    objects: &mut Objects,
    call: u32,
    error: Error,
) -> Option<TaskId>
    ensures { WakesKeepingPlaces tasks objects
        (λ s. fail_future s call error) result }
{
    let o = take_pending_external(objects, call)?;
    fail_at(tasks, objects, o, error)
}
