// Soundness: clauses 9 to 11, and `is_sound`, the whole (document 01: "A store is sound when").
// Clause by clause; it runs at every call: linear in the rows in use, and
// nothing past the counts is looked at. The words and clauses 1 to 8 are in `sound_rows` and `sound_tasks`.
#![tactic(auto)]

pub mod filled; // clause 9
pub mod slots; // clause 10
pub mod runner; // clause 11

ghost use Rattle.std.specs.Prelude.{◌≡◌, List, ◌≤◌, take};
ghost use Rattle.asyncio.specs.Limits.{task_limit};
ghost use Rattle.asyncio.specs.Ranges.{HeaderFits};
ghost use Rattle.rows.specs.Slices.{task_in, object_in, place_in};
ghost use Rattle.contract.specs.Contract.{kept, before};
ghost use Rattle.machine.specs.Store.{LogEntry};
ghost use Rattle.machine.specs.Sound.{sound};
ghost use Rattle.sound.specs.Clauses.{rows_canonical, tables_sound, tasks_sound, gathers_sound};

use asyncio::{Header, Objects, Places, TASKS, Tasks};
use queue::ReadyQueue;
use rows::tables::load_header;
use sound_rows::{numbers, values};
use sound_tasks::{blocked, calls, entries, one_task};

// Every row in use is canonical.
#[tactic(auto, using(sound_words::specs::Loops::both), unfolding(crate::specs::Clauses::rows_canonical))]
fn rows_canonical(header: Header, tasks: &Tasks, objects: &Objects, places: &Places) -> bool
    requires { HeaderFits header }
    ensures { result ≡ rows_canonical header tasks.now objects.now places.now }
{
    sound_words::header_same(objects)
        && sound_words::tasks_same(tasks, header.next as usize)
        && sound_words::objects_same(objects, header.made as usize)
        && sound_words::places_same(places, header.used as usize)
}

// Clauses 1 to 4.
#[tactic(auto, using(sound_words::specs::Loops::both), unfolding(crate::specs::Clauses::tables_sound))]
fn tables_sound(header: Header, tasks: &Tasks, objects: &Objects, places: &Places) -> bool
    requires { HeaderFits header }
    ensures { result ≡ tables_sound header (object_in objects) (task_in tasks) (place_in places) }
{
    numbers::numbers_in_range(header, tasks, objects)
        && numbers::spawned_in_range(header, objects)
        && values::items_lower(header.made, objects, places)
        && values::lists_completed(header, tasks, objects, places)
}

// Clauses 5 to 8.
#[tactic(auto, using(sound_words::specs::Loops::both), unfolding(crate::specs::Clauses::tasks_sound))]
fn tasks_sound(header: Header, queue: &ReadyQueue, tasks: &Tasks, objects: &Objects) -> bool
    requires { HeaderFits header × (queue.now.len ≤ task_limit) }
    ensures { result ≡ tasks_sound header (object_in objects) (task_in tasks) (take queue.now.len queue.now.ids) }
{
    entries::queue_ready(queue, header.next, tasks)
        && calls::calls_distinct(header, objects)
        && one_task::one_task(header.next, tasks)
        && blocked::blocked_match(header, tasks, objects)
}

// Clauses 9 to 11.
#[tactic(auto, using(sound_words::specs::Loops::both), unfolding(crate::specs::Clauses::gathers_sound))]
fn gathers_sound(header: Header, tasks: &Tasks, objects: &Objects, places: &Places) -> bool
    requires { HeaderFits header }
    ensures { result ≡ gathers_sound header (object_in objects) (task_in tasks) (place_in places) }
{
    filled::places_filled(header.made, objects, places)
        && slots::slots_open(header, tasks, objects, places)
        && runner::one_runs(header, tasks)
}

// Is the store sound? The words are tested first, so that the clauses speak of rows whose words say what they are read as.
pub fn is_sound(queue: &ReadyQueue, tasks: &Tasks, objects: &Objects, places: &Places) -> bool
    ensures { (l : List LogEntry) → result ≡ sound (before (kept tasks.now) (kept objects.now) (kept places.now) queue.now l) }
{
    if TASKS < queue.len {
        return false;
    }
    let header = load_header(objects);
    rows_canonical(header, tasks, objects, places)
        && tables_sound(header, tasks, objects, places)
        && tasks_sound(header, queue, tasks, objects)
        && gathers_sound(header, tasks, objects, places)
}
