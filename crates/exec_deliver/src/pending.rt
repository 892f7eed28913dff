// An external that is pending.
ghost use Rattle.std.specs.Prelude.{◌≡◌, ◌<◌};
ghost use Rattle.asyncio.specs.Limits.{object_limit};
ghost use Rattle.rows.specs.Tables.{object_at};
ghost use Rattle.machine.specs.Scheduler.{as_pending};
ghost use Rattle.exec_deliver.specs.Pending.{option_pending};

use asyncio::{Awaiter, CallId, ExternalFutureState, HeapId, Object, Objects, Value};

// Its call, who waits for it, and the result that is stored.
#[derive(Clone, Copy)]
pub(crate) struct PendingExternal {
    pub call: CallId,
    pub awaiter: Awaiter,
    pub stored: Option<Value>,
}

// Object `o` as a pending external, if it is one.
#[tactic(auto, unfolding(machine::specs::Scheduler::as_pending))]
pub(crate) fn as_pending(objects: &Objects, o: HeapId) -> Option<PendingExternal>
    requires { o.0 < object_limit }
    ensures { option_pending result ≡ as_pending (object_at objects.now o.0) }
{
    let Object::ExternalFuture { call, state } = rows::tables::load_object(objects, o) else {
        return None;
    };
    let ExternalFutureState::Pending { awaiter, stored } = state else {
        return None;
    };
    Some(PendingExternal {
        call,
        awaiter,
        stored,
    })
}
