// The open places of a gather: does one of them name an object?
ghost use Rattle.std.specs.Prelude.{◌≡◌, ◌<◌};
ghost use Rattle.asyncio.specs.Limits.{item_limit, place_limit};
ghost use Rattle.asyncio.specs.Ranges.{PlacesFit};
ghost use Rattle.asyncio.specs.declared.Awaiter.{Awaiter};
ghost use Rattle.rows.specs.Slices.{place_in};
ghost use Rattle.machine.specs.Scheduler.{bit};
ghost use Rattle.machine.specs.Commit.{open_from};
ghost use Rattle.scheduler_states.specs.Awaited.{awaited_gather};
ghost use Rattle.scheduler_states.specs.OpenPlaces.{open_here};

use asyncio::{HeapId, Places};

// Is place `i` of its gather open?
pub fn is_bit_open(open_places: u32, i: usize) -> bool
    requires { i < item_limit }
    ensures { result ≡ bit open_places i }
{
    (open_places >> i) % 2 != 0
}

// Is place `p`, which is place `i` of its gather, open, and does it name object `o`?
pub fn is_open_here(places: &Places, open_places: u32, p: usize, i: usize, o: HeapId) -> bool
    requires { (p < place_limit) × (i < item_limit) }
    ensures { result ≡ open_here (place_in places) open_places p i o.0 }
{
    is_bit_open(open_places, i) && rows::parts::item_at(places, p) == o
}

// Does an open place name object `o`? The gather has `count` places from `first` on; it does not matter who awaits it.
pub fn is_open(places: &Places, first: u16, count: u16, open_places: u32, o: HeapId) -> bool
    requires { PlacesFit first count }
    ensures { (a : Awaiter) → result ≡ open_from (place_in places) (awaited_gather first count a open_places) o.0 0 count }
{
    for i in 0..count as usize {
        if is_open_here(places, open_places, first as usize + i, i, o) {
            return true;
        }
    }
    false
}
