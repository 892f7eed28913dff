// What `boundary` calls: an event or a read on a session's memory as arrays, with the numbers of its answer.
// The queue is lent as its array and its count, as C has it.
#![tactic(auto)]

ghost use Rattle.std.specs.Prelude.{◌≡◌, List, ℕ, length};
ghost use Rattle.machine.specs.Machine as machine;
ghost use Rattle.exec_switch.specs.Answer.{answer_with};
ghost use Rattle.step_event.specs.EventOf.{event_of};
ghost use Rattle.boundary_numbers.specs.Numbers.{numbers_as};
ghost use Rattle.boundary_lent.specs.Boundary.{BoundaryStep, BoundaryRead, BoundaryPlace, BoundaryBegin, SoundLent, SoundRead, is_sound_lent};

use asyncio::{OBJECTS, Objects, Places, TASKS, Tasks};
use boundary_numbers::{Numbers, numbers_of, place_numbers, shown_numbers};
use queue::ReadyQueue;
use step_event::{Answered, Event};

// The queue goes back to where it was lent: the numbers of the answer.
fn give_back(answered: Answered, ids: &mut [u16; TASKS], len: &mut usize) -> Numbers
    ensures { (ids.new ≡ answered.queue.ids) × (len.new ≡ answered.queue.len)
        × ((cs : List ℕ) → answered.calls ≡ length cs → result ≡ numbers_as (answer_with cs answered.answer)) }
{
    let left = answered.queue.ids;
    *ids = left;
    *len = answered.queue.len;
    numbers_of(answered.answer, answered.calls as u64)
}

// An event on any memory.
pub fn dispatch(
    tasks: &mut Tasks,
    objects: &mut Objects,
    places: &mut Places,
    calls: &mut [u64; OBJECTS],
    ids: &mut [u16; TASKS],
    len: &mut usize,
    event: Event,
    items: &[u16],
    results: &[u8],
) -> Numbers
    ensures { BoundaryStep tasks objects places calls ids len (event_of items.now results.now event) result }
{
    let queue = ReadyQueue {
        ids: *ids,
        len: *len,
    };
    let answered = session_dispatch::dispatch(
        tasks, objects, places, calls, queue, event, items, results,
    );
    give_back(answered, ids, len)
}

// An event on a sound store.
pub fn step(
    tasks: &mut Tasks,
    objects: &mut Objects,
    places: &mut Places,
    calls: &mut [u64; OBJECTS],
    ids: &mut [u16; TASKS],
    len: &mut usize,
    event: Event,
    items: &[u16],
    results: &[u8],
) -> Numbers
    requires { SoundLent tasks.old objects.old places.old ids.old len.old }
    ensures { BoundaryStep tasks objects places calls ids len (event_of items.now results.now event) result }
{
    let queue = ReadyQueue {
        ids: *ids,
        len: *len,
    };
    let answered = step_event::step(tasks, objects, places, calls, queue, event, items, results);
    give_back(answered, ids, len)
}

// A fresh session.
pub fn begin(
    tasks: &mut Tasks,
    objects: &mut Objects,
    places: &mut Places,
    ids: &mut [u16; TASKS],
    len: &mut usize,
)
    ensures { BoundaryBegin tasks objects places ids len }
{
    let begun = session_begin::begin(tasks, objects, places, ReadyQueue::new());
    let left = begun.queue.ids;
    *ids = left;
    *len = begun.queue.len;
}

// Is the memory a sound store?
pub fn is_sound(
    tasks: &Tasks,
    objects: &Objects,
    places: &Places,
    ids: &[u16; TASKS],
    len: usize,
) -> bool
    ensures { result ≡ is_sound_lent tasks.now objects.now places.now ids.now len }
{
    let queue = ReadyQueue { ids: *ids, len };
    sound::is_sound(&queue, tasks, objects, places)
}

// May a call be answered at once?
pub fn eager(
    tasks: &Tasks,
    objects: &Objects,
    places: &Places,
    ids: &[u16; TASKS],
    len: usize,
) -> Numbers
    ensures { BoundaryRead tasks.now objects.now places.now ids.now len machine.Event.eager result }
{
    let queue = ReadyQueue { ids: *ids, len };
    numbers_of(session_reads::eager(tasks, objects, places, queue), 0)
}

// The same of a sound store.
pub fn eager_unchecked(
    tasks: &Tasks,
    objects: &Objects,
    places: &Places,
    ids: &[u16; TASKS],
    len: usize,
) -> Numbers
    requires { SoundRead tasks.now objects.now places.now ids.now len }
    ensures { BoundaryRead tasks.now objects.now places.now ids.now len machine.Event.eager result }
{
    let queue = ReadyQueue { ids: *ids, len };
    numbers_of(step_read::eager(objects, &queue), 0)
}

// What an object is and has.
pub fn show(
    tasks: &Tasks,
    objects: &Objects,
    places: &Places,
    ids: &[u16; TASKS],
    len: usize,
    object: u16,
) -> Numbers
    ensures { BoundaryRead tasks.now objects.now places.now ids.now len (machine.Event.show object) result }
{
    let queue = ReadyQueue { ids: *ids, len };
    shown_numbers(session_reads::show(tasks, objects, places, queue, object))
}

// The same of a sound store.
pub fn show_unchecked(
    tasks: &Tasks,
    objects: &Objects,
    places: &Places,
    ids: &[u16; TASKS],
    len: usize,
    object: u16,
) -> Numbers
    requires { SoundRead tasks.now objects.now places.now ids.now len }
    ensures { BoundaryRead tasks.now objects.now places.now ids.now len (machine.Event.show object) result }
{
    shown_numbers(step_read::show(objects, object))
}

// A place of what an object shows.
pub fn place(
    tasks: &Tasks,
    objects: &Objects,
    places: &Places,
    ids: &[u16; TASKS],
    len: usize,
    object: u16,
    place: u16,
) -> Numbers
    ensures { BoundaryPlace tasks.now objects.now places.now ids.now len object place result }
{
    let queue = ReadyQueue { ids: *ids, len };
    let reading = session_reads::show(tasks, objects, places, queue, object);
    place_numbers(places, reading, place)
}

// The same of a sound store.
pub fn place_unchecked(
    tasks: &Tasks,
    objects: &Objects,
    places: &Places,
    ids: &[u16; TASKS],
    len: usize,
    object: u16,
    place: u16,
) -> Numbers
    requires { SoundRead tasks.now objects.now places.now ids.now len }
    ensures { BoundaryPlace tasks.now objects.now places.now ids.now len object place result }
{
    place_numbers(places, step_read::show(objects, object), place)
}
