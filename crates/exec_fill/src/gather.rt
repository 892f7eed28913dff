// Into a gather: resolve_child, and fail.
ghost use Rattle.std.specs.Prelude.{◌<◌};
ghost use Rattle.asyncio.specs.Limits.{object_limit};
ghost use Rattle.machine.specs.Delivery.{resolve_child, fail_gather};
ghost use Rattle.exec_fill.specs.Delivered.{Settles, SettlesKeepingPlaces};

use crate::fill::fill_places;
use asyncio::{Awaiter, Error, GatherState, HeapId, Objects, Places, Value};
use scheduler_states::awaited::{as_awaited, put_gather};

// A child's value: it completes the gather when no place is open any more. A gather that is not awaited discards it.
pub fn resolve_child(
    objects: &mut Objects,
    places: &mut Places,
    g: HeapId,
    source: HeapId,
    value: Value,
) -> Option<Awaiter>
    requires { g.0 < object_limit }
    ensures { Settles objects places
        (λ s. resolve_child s g.0 source.0 value) result }
{
    let w = as_awaited(objects, g)?;
    let open_places = fill_places(places, w, source, value);
    if open_places == 0 {
        put_gather(objects, g, w, GatherState::Completed);
        return Some(w.awaiter);
    }
    let awaiter = w.awaiter;
    put_gather(
        objects,
        g,
        w,
        GatherState::Awaited {
            awaiter,
            open_places,
        },
    );
    None
}

// The first failure of an awaited gather. One that is not awaited keeps its state.
pub fn fail(objects: &mut Objects, g: HeapId, error: Error) -> Option<Awaiter>
    requires { g.0 < object_limit }
    ensures { SettlesKeepingPlaces objects (λ s. fail_gather s g.0 error) result }
{
    let w = as_awaited(objects, g)?;
    put_gather(objects, g, w, GatherState::Failed(error));
    Some(w.awaiter)
}
