// A gather as it stands while it is committed: AwaitedGather.
ghost use Rattle.std.specs.Prelude.{◌≡◌, ◌<◌};
ghost use Rattle.asyncio.specs.Limits.{object_limit};
ghost use Rattle.asyncio.specs.declared.Object.{Object};
ghost use Rattle.rows.specs.Tables.{object_at, object_put};
ghost use Rattle.machine.specs.Scheduler.{as_awaited};
ghost use Rattle.scheduler_states.specs.Awaited.{option_awaited};

use asyncio::{Awaiter, GatherState, HeapId, Object, Objects};

// An awaited gather: its places, its awaiter, and the bits of the places that wait for their items.
#[derive(Clone, Copy)]
pub struct AwaitedGather {
    pub first: u16,
    pub count: u16,
    pub awaiter: Awaiter,
    pub open_places: u32,
}

// Object `g` as an awaited gather, if it is one.
pub fn as_awaited(objects: &Objects, g: HeapId) -> Option<AwaitedGather>
    requires { g.0 < object_limit }
    ensures { option_awaited result ≡ as_awaited (object_at objects.now g.0) }
{
    let Object::GatherFuture {
        first,
        count,
        state,
    } = rows::tables::load_object(objects, g)
    else {
        return None;
    };
    let GatherState::Awaited {
        awaiter,
        open_places,
    } = state
    else {
        return None;
    };
    Some(AwaitedGather {
        first,
        count,
        awaiter,
        open_places,
    })
}

// Gather `g`, which is `w`, in that state.
pub fn put_gather(objects: &mut Objects, g: HeapId, w: AwaitedGather, state: GatherState)
    requires { g.0 < object_limit }
    ensures { objects.new ≡ object_put objects.old g.0 (Object.GatherFuture w.first w.count state) }
{
    let gather = Object::GatherFuture {
        first: w.first,
        count: w.count,
        state,
    };
    rows::tables::store_object(objects, g, gather);
}
