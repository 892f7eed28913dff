// Clauses 3 and 4: items are lower than their gather, and list values name completed gathers.
ghost use Rattle.std.specs.Prelude.{◌≡◌, ◌<◌, ◌+◌, ◌≤◌, ltb};
ghost use Rattle.asyncio.specs.Limits.{task_limit, object_limit, place_limit};
ghost use Rattle.rows.specs.Slices.{task_in, object_in, place_in};
ghost use Rattle.machine.specs.Tests.{all_below};
ghost use Rattle.machine.specs.Sound.{items_below, items_lower, value_known, option_known, object_values, state_values, lists_completed};
ghost use Rattle.asyncio.specs.Ranges.{HeaderFits};

use asyncio::words::{to_kind, to_option, to_value};
use asyncio::{Header, HeapId, Kind, Objects, Places, TaskId, TaskState, Tasks, Value};
use rows::parts::{count_at, first_at, item_at, kind_at, result_at, state_at};
use rows::tables::object_row;

// ---- 3. Items are lower than their gather.

// The items of object `g`, if it is a gather; other objects have no places.
fn items_below(objects: &Objects, places: &Places, g: HeapId) -> bool
    requires { g.0 < object_limit }
    ensures { result ≡ items_below (place_in places) g.0 (object_in objects g.0) }
{
    let first = first_at(objects, g) as usize;
    let count = count_at(objects, g) as usize;
    // Asked first: most objects have no places, and a range that is empty costs more.
    count == 0 || (0..count).all(|k| item_at(places, first + k).0 < g.0)
}

// Of every object.
pub fn items_lower(made: u16, objects: &Objects, places: &Places) -> bool
    requires { made ≤ object_limit }
    ensures { result ≡ items_lower made (object_in objects) (place_in places) }
{
    (0..made).all(|o| items_below(objects, places, HeapId(o)))
}

// ---- 4. List values name completed gathers.

// A value that may be handed on: plain, or the list of a completed gather among the objects made.
#[tactic(auto, using(sound_words::specs::Loops::both), unfolding(machine::specs::Sound::value_known))]
pub fn value_known(made: u16, objects: &Objects, v: Value) -> bool
    requires { made ≤ object_limit }
    ensures { result ≡ value_known made (object_in objects) v }
{
    match v {
        Value::Plain(_) => true,
        Value::List(g) => g.0 < made && kind_at(objects, g).is_completed(),
    }
}

// A value, or none.
#[tactic(auto, using(sound_words::specs::Loops::both), unfolding(machine::specs::Sound::option_known))]
pub fn option_known(made: u16, objects: &Objects, x: Option<Value>) -> bool
    requires { made ≤ object_limit }
    ensures { result ≡ option_known made (object_in objects) x }
{
    x.is_none_or(|v| value_known(made, objects, v))
}

// The value or stored result that object `o` holds, read from its own two words: a pending external holds the one, a resolved
// external the other. Other objects hold none.
fn object_values(made: u16, objects: &Objects, o: HeapId) -> bool
    requires { (made ≤ object_limit) × (o.0 < object_limit) }
    ensures { result ≡ object_values made (object_in objects) (object_in objects o.0) }
{
    let row = object_row(objects, o.0 as usize);
    match to_kind(row[0]) {
        Kind::PendingExternal => option_known(made, objects, to_option(row[5], row[6])),
        Kind::ResolvedExternal => value_known(made, objects, to_value(row[5], row[6])),
        _ => true,
    }
}

// The value delivered to a task.
#[tactic(auto, using(sound_words::specs::Loops::both), unfolding(machine::specs::Sound::state_values))]
fn state_values(made: u16, objects: &Objects, s: TaskState) -> bool
    requires { made ≤ object_limit }
    ensures { result ≡ state_values made (object_in objects) s }
{
    match s {
        TaskState::Woken(v) => value_known(made, objects, v),
        _ => true,
    }
}

fn objects_known(made: u16, objects: &Objects) -> bool
    requires { made ≤ object_limit }
    ensures { result ≡ all_below made (λ o. object_values made (object_in objects) (object_in objects o)) }
{
    (0..made).all(|o| object_values(made, objects, HeapId(o)))
}

fn tasks_known(made: u16, next: u16, tasks: &Tasks, objects: &Objects) -> bool
    requires { (made ≤ object_limit) × (next ≤ task_limit) }
    ensures { result ≡ all_below next (λ t. state_values made (object_in objects) (task_in tasks t).state) }
{
    (0..next).all(|t| state_values(made, objects, state_at(tasks, TaskId(t))))
}

fn places_known(made: u16, used: u16, objects: &Objects, places: &Places) -> bool
    requires { (made ≤ object_limit) × (used ≤ place_limit) }
    ensures { result ≡ all_below used (λ p. option_known made (object_in objects) (place_in places p).result) }
{
    (0..used as usize).all(|p| option_known(made, objects, result_at(places, p)))
}

// Of objects, tasks and places.
#[tactic(auto, using(sound_words::specs::Loops::both), unfolding(machine::specs::Sound::lists_completed))]
pub fn lists_completed(header: Header, tasks: &Tasks, objects: &Objects, places: &Places) -> bool
    requires { HeaderFits header }
    ensures { result ≡ lists_completed header (object_in objects) (task_in tasks) (place_in places) }
{
    objects_known(header.made, objects)
        && tasks_known(header.made, header.next, tasks, objects)
        && places_known(header.made, header.used, objects, places)
}
