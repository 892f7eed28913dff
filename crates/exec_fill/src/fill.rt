// A child's value into the open places of its gather that name it (the loop of resolve_child).
ghost use Rattle.std.specs.Prelude.{◌≡◌, ◌<◌};
ghost use Rattle.asyncio.specs.Limits.{item_limit, place_limit};
ghost use Rattle.asyncio.specs.Ranges.{PlacesFit};
ghost use Rattle.machine.specs.Delivery.{filled, fill_one, fill_from};

use asyncio::{HeapId, Place, Places, Value};
use scheduler_states::awaited::AwaitedGather;
use scheduler_states::places::is_open_here;

// Place `p`, which is place `i` of its gather: where it is open and names `source`, the value goes in and its bit is cleared. The open
// places that are left.
fn fill_one(
    places: &mut Places,
    p: usize,
    i: usize,
    open_places: u32,
    source: HeapId,
    value: Value,
) -> u32
    requires { (p < place_limit) × (i < item_limit) }
    ensures { filled places.new result ≡ fill_one places.old open_places p i source.0 value }
{
    if !is_open_here(places, open_places, p, i, source) {
        return open_places;
    }
    let place = Place {
        item: source,
        result: Some(value),
    };
    rows::tables::store_place(places, p, place);
    open_places - (1 << i)
}

// Every open place of the gather `w` that names `source` is filled, and its bit cleared.
pub(crate) fn fill_places(
    places: &mut Places,
    w: AwaitedGather,
    source: HeapId,
    value: Value,
) -> u32
    requires { PlacesFit w.first w.count }
    ensures { filled places.new result ≡ fill_from places.old w.open_places w.first source.0 value 0 w.count }
{
    let mut left = w.open_places;
    for i in 0..w.count as usize {
        left = fill_one(places, w.first as usize + i, i, left, source, value);
    }
    left
}
