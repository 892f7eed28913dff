// Clause 10: a slot awaiter's source is its holder's own object, and its gather was committed and, if still awaited, has that source open.
ghost use Rattle.std.specs.Prelude.{◌≡◌, ◌<◌, ◌≤◌};
ghost use Rattle.asyncio.specs.Limits.{task_limit, object_limit};
ghost use Rattle.asyncio.specs.Parts.{awaiter_of};
ghost use Rattle.asyncio.specs.Ranges.{AwaiterFits};
ghost use Rattle.rows.specs.Slices.{task_in, object_in, place_in};
ghost use Rattle.machine.specs.Tests.{all_below};
ghost use Rattle.machine.specs.Sound.{slot_open, slots_open};
ghost use Rattle.sound.specs.SlotLaws.{gather_holds, task_slot_open};

use asyncio::{Awaiter, Header, HeapId, Objects, Places, TaskId, Tasks};
use rows::parts::{
    awaiter_at, coroutine_at, count_at, first_at, kind_at, open_at, state_at, task_awaiter_at,
};
use scheduler_states::places::is_open;

// Gather `g` was committed and, if it is awaited, has object `o` open.
fn gather_holds(objects: &Objects, places: &Places, g: HeapId, o: HeapId) -> bool
    requires { g.0 < object_limit }
    ensures { result ≡ gather_holds (object_in objects) (place_in places) g.0 o.0 }
{
    let kind = kind_at(objects, g);
    if kind.is_awaited() {
        let first = first_at(objects, g);
        let count = count_at(objects, g);
        let open_places = open_at(objects, g);
        is_open(places, first, count, open_places, o)
    } else {
        kind.is_committed()
    }
}

// The awaiter of the holder of object `o`.
#[tactic(auto, using(sound_words::specs::Loops::both), unfolding(machine::specs::Sound::slot_open))]
fn slot_open(objects: &Objects, places: &Places, o: HeapId, w: Awaiter) -> bool
    requires { AwaiterFits w }
    ensures { result ≡ slot_open (object_in objects) (place_in places) o.0 w }
{
    match w {
        Awaiter::GatherSlot { gather, source } => source == o
            && gather_holds(objects, places, gather, o),
        Awaiter::Nobody | Awaiter::Task(_) => true,
    }
}

// An object's own awaiter.
fn object_slot(objects: &Objects, places: &Places, o: HeapId) -> bool
    requires { o.0 < object_limit }
    ensures { result ≡ slot_open (object_in objects) (place_in places) o.0 (awaiter_of (object_in objects o.0)) }
{
    slot_open(objects, places, o, awaiter_at(objects, o))
}

// Of every object.
fn object_slots(made: u16, objects: &Objects, places: &Places) -> bool
    requires { made ≤ object_limit }
    ensures { result ≡ all_below made (λ o. slot_open (object_in objects) (place_in places) o (awaiter_of (object_in objects o))) }
{
    (0..made).all(|o| object_slot(objects, places, HeapId(o)))
}

// A live task's awaiter, for its coroutine.
fn task_slot(tasks: &Tasks, objects: &Objects, places: &Places, t: TaskId) -> bool
    requires { t.0 < task_limit }
    ensures { result ≡ task_slot_open (object_in objects) (task_in tasks) (place_in places) t.0 }
{
    !state_at(tasks, t).is_live()
        || slot_open(
            objects,
            places,
            coroutine_at(tasks, t),
            task_awaiter_at(tasks, t),
        )
}

// Of every task.
fn task_slots(next: u16, tasks: &Tasks, objects: &Objects, places: &Places) -> bool
    requires { next ≤ task_limit }
    ensures { result ≡ all_below next (task_slot_open (object_in objects) (task_in tasks) (place_in places)) }
{
    (0..next).all(|t| task_slot(tasks, objects, places, TaskId(t)))
}

// Of objects, and of live tasks for their coroutines.
#[tactic(auto, using(sound_words::specs::Loops::both), unfolding(machine::specs::Sound::slots_open))]
pub fn slots_open(header: Header, tasks: &Tasks, objects: &Objects, places: &Places) -> bool
    requires { (header.made ≤ object_limit) × (header.next ≤ task_limit) }
    ensures { result ≡ slots_open header (object_in objects) (task_in tasks) (place_in places) }
{
    object_slots(header.made, objects, places) && task_slots(header.next, tasks, objects, places)
}
