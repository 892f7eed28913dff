// Clause 9: an awaited gather has an open place and the rest filled, a completed one has all filled.
ghost use Rattle.std.specs.Prelude.{◌≡◌, ◌||◌, ◌<◌, ◌+◌, ◌≤◌};
ghost use Rattle.asyncio.specs.Limits.{object_limit, item_limit, place_limit};
ghost use Rattle.rows.specs.Slices.{object_in, place_in};
ghost use Rattle.machine.specs.Scheduler.{bit};
ghost use Rattle.machine.specs.Sound.{is_filled, rest_filled, object_filled, places_filled};

use asyncio::{HeapId, Objects, Places};
use rows::parts::{count_at, first_at, kind_at, open_at, result_at};
use scheduler_states::places::is_bit_open;

// Place `k` of a gather whose places start at `first` is open in `m`, or filled.
fn place_done(places: &Places, first: usize, m: u32, k: usize) -> bool
    requires { (first + k < place_limit) × (k < item_limit) }
    ensures { result ≡ (bit m k || is_filled (place_in places (first + k)).result) }
{
    is_bit_open(m, k) || result_at(places, first + k).is_some()
}

// The places not open in `m` are filled.
fn rest_filled(places: &Places, first: usize, n: usize, m: u32) -> bool
    requires { (first + n ≤ place_limit) × (n ≤ item_limit) }
    ensures { result ≡ rest_filled (place_in places) first n m }
{
    (0..n).all(|k| place_done(places, first, m, k))
}

// Object `o` by its kind: only gathers have places.
fn object_filled(objects: &Objects, places: &Places, o: HeapId) -> bool
    requires { o.0 < object_limit }
    ensures { result ≡ object_filled (place_in places) (object_in objects o.0) }
{
    let kind = kind_at(objects, o);
    let first = first_at(objects, o) as usize;
    let count = count_at(objects, o) as usize;
    if kind.is_awaited() {
        let m = open_at(objects, o);
        m != 0 && rest_filled(places, first, count, m)
    } else {
        !kind.is_completed() || rest_filled(places, first, count, 0)
    }
}

// Of every object.
pub fn places_filled(made: u16, objects: &Objects, places: &Places) -> bool
    requires { made ≤ object_limit }
    ensures { result ≡ places_filled made (object_in objects) (place_in places) }
{
    (0..made).all(|o| object_filled(objects, places, HeapId(o)))
}
