// Clauses 1 and 2: numbers and counts lie in range, and no more tasks were spawned than committed gathers have places.
ghost use Rattle.std.specs.Prelude.{◌≡◌, ◌*◌, ◌<◌, ◌≤◌, ◌^◌, ltb};
ghost use Rattle.asyncio.specs.Limits.{task_limit, object_limit, item_limit};
ghost use Rattle.asyncio.specs.Kinds.{kind, is_coroutine};
ghost use Rattle.rows.specs.Slices.{task_in, object_in};
ghost use Rattle.machine.specs.Tests.{◌and◌, all_below, sum_below};
ghost use Rattle.machine.specs.Sound.{awaiter_in_range, is_slot, object_in_range, task_in_range, numbers_in_range, committed_places, spawned_in_range};
ghost use Rattle.sound_rows.specs.Numbers.{objects_ranged};

use asyncio::{Awaiter, Header, HeapId, Objects, TaskId, Tasks};
use rows::parts::{
    awaiter_at, call_at, coroutine_at, count_at, first_at, kind_at, open_at, state_at,
    task_awaiter_at,
};

// ---- 1. Numbers and counts lie in range.

// A task named as an awaiter, even a dead one, is below the next number; a gather is made.
#[tactic(auto, using(sound_words::specs::Loops::both), unfolding(machine::specs::Sound::awaiter_in_range))]
fn awaiter_in_range(header: Header, w: Awaiter) -> bool
    ensures { result ≡ awaiter_in_range header w }
{
    match w {
        Awaiter::Nobody => true,
        Awaiter::Task(t) => t.0 < header.next,
        Awaiter::GatherSlot { gather, .. } => gather.0 < header.made,
    }
}

// A gather of `n` places has no open bit at or above `n`.
fn open_in_range(n: u16, m: u32) -> bool
    requires { n ≤ item_limit }
    ensures { result ≡ ltb m (2 ^ n) }
{
    (m as u64) < (1u64 << n)
}

// Object `o` is made; its call was handed out; a gather's places start at `p`.
fn object_in_range(header: Header, objects: &Objects, o: HeapId, p: u16) -> bool
    requires { o.0 < object_limit }
    ensures { result ≡ object_in_range header p (object_in objects o.0) }
{
    let kind = kind_at(objects, o);
    if kind.is_external() {
        call_at(objects, o).word() < header.calls as u64
    } else if kind.is_gather() {
        first_at(objects, o) == p && open_in_range(count_at(objects, o), open_at(objects, o))
    } else {
        kind.is_coroutine()
    }
}

// Objects and their awaiters, and the places used: `p` is where the places of the gathers so far end.
fn objects_in_range(header: Header, objects: &Objects) -> bool
    requires { header.made ≤ object_limit }
    ensures { result ≡ objects_ranged header (object_in objects) }
{
    let mut p = 0;
    for o in 0..header.made {
        let object = HeapId(o);
        if !object_in_range(header, objects, object, p)
            || !awaiter_in_range(header, awaiter_at(objects, object))
        {
            return false;
        }
        p += count_at(objects, object);
    }
    header.used == p
}

// A slot of a gather that is made.
#[tactic(auto, using(sound_words::specs::Loops::both), unfolding(machine::specs::Sound::is_slot, machine::specs::Sound::awaiter_in_range))]
fn slot_in_range(header: Header, w: Awaiter) -> bool
    ensures { result ≡ is_slot w and awaiter_in_range header w }
{
    matches!(w, Awaiter::GatherSlot { gather, .. } if gather.0 < header.made)
}

// Object `c` is made, and a coroutine.
#[tactic(auto, using(sound_words::specs::Loops::both))]
fn coroutine_made(made: u16, objects: &Objects, c: HeapId) -> bool
    requires { made ≤ object_limit }
    ensures { result ≡ ltb c.0 made and is_coroutine (kind (object_in objects c.0)) }
{
    c.0 < made && kind_at(objects, c).is_coroutine()
}

// Main is never unstarted, and has no awaiter and no coroutine. A live spawned task has a slot for its awaiter, and names a coroutine.
#[tactic(auto, using(sound_words::specs::Loops::both, sound_words::specs::Loops::and_assoc, crate::specs::NumberLaws::main_by, crate::specs::NumberLaws::spawned_by), unfolding(machine::specs::Tests::implies))]
fn task_in_range(header: Header, tasks: &Tasks, objects: &Objects, t: TaskId) -> bool
    requires { (header.made ≤ object_limit) × (t.0 < task_limit) }
    ensures { result ≡ task_in_range header (object_in objects) t.0 (task_in tasks t.0) }
{
    let state = state_at(tasks, t);
    let awaiter = task_awaiter_at(tasks, t);
    let coroutine = coroutine_at(tasks, t);
    if t.is_main() {
        return !state.is_unstarted() && awaiter.is_nobody() && coroutine.0 == 0;
    }
    !state.is_live()
        || slot_in_range(header, awaiter) && coroutine_made(header.made, objects, coroutine)
}

fn tasks_in_range(header: Header, tasks: &Tasks, objects: &Objects) -> bool
    requires { (header.made ≤ object_limit) × (header.next ≤ task_limit) }
    ensures { result ≡ all_below header.next (λ t. task_in_range header (object_in objects) t (task_in tasks t)) }
{
    (0..header.next).all(|t| task_in_range(header, tasks, objects, TaskId(t)))
}

// Counts, objects, awaiters and tasks.
#[tactic(auto, using(sound_words::specs::Loops::both, crate::specs::NumberLaws::numbers_by))]
pub fn numbers_in_range(header: Header, tasks: &Tasks, objects: &Objects) -> bool
    requires { (header.made ≤ object_limit) × (header.next ≤ task_limit) }
    ensures { result ≡ numbers_in_range header (object_in objects) (task_in tasks) }
{
    header.next != 0 && objects_in_range(header, objects) && tasks_in_range(header, tasks, objects)
}

// ---- 2. No more tasks were spawned than committed gathers have places.

// The places of the committed gathers below `made`.
fn committed_places(objects: &Objects, made: u16) -> u16
    requires { made ≤ object_limit }
    ensures { (result ≡ sum_below made (λ o. committed_places (object_in objects o))) × (result ≤ item_limit * object_limit) }
{
    let mut sum = 0;
    for o in 0..made {
        let object = HeapId(o);
        if kind_at(objects, object).is_committed() {
            sum += count_at(objects, object);
        }
    }
    sum
}

// Spawned: the tasks below the next number but main.
pub fn spawned_in_range(header: Header, objects: &Objects) -> bool
    requires { header.made ≤ object_limit }
    ensures { result ≡ spawned_in_range header (object_in objects) }
{
    header.next <= committed_places(objects, header.made) + 1
}
