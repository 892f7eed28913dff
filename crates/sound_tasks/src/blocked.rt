// Clause 8: a blocked task is the awaiter of what it waits on, and a live awaiter task is blocked there.
ghost use Rattle.std.specs.Prelude.{◌≡◌, ◌<◌, ◌≤◌};
ghost use Rattle.asyncio.specs.Limits.{task_limit, object_limit};
ghost use Rattle.asyncio.specs.Parts.{awaiter_of};
ghost use Rattle.asyncio.specs.States.{is_live};
ghost use Rattle.rows.specs.Slices.{task_in, object_in};
ghost use Rattle.machine.specs.Tests.{implies, all_below};
ghost use Rattle.machine.specs.Scheduler.{blocked_on};
ghost use Rattle.machine.specs.Sound.{is_task, blocked_awaits, blocked_at, awaiter_blocked, blocked_match};

use asyncio::{Awaiter, Header, HeapId, Objects, TaskId, TaskState, Tasks};
use rows::parts::{awaiter_at, state_at};

// The awaiter is task `t`.
#[tactic(auto, unfolding(machine::specs::Sound::is_task))]
fn is_task(t: TaskId, w: Awaiter) -> bool
    ensures { result ≡ is_task t.0 w }
{
    matches!(w, Awaiter::Task(u) if u == t)
}

// Task `t`, where it is blocked on an object: that object is made and `t` is its awaiter.
fn blocked_awaits(made: u16, tasks: &Tasks, objects: &Objects, t: TaskId) -> bool
    requires { (made ≤ object_limit) × (t.0 < task_limit) }
    ensures { result ≡ blocked_awaits made (object_in objects) t.0 (blocked_on (task_in tasks t.0).state) }
{
    match state_at(tasks, t) {
        TaskState::Blocked(o) => o.0 < made && is_task(t, awaiter_at(objects, o)),
        _ => true,
    }
}

// Of every task.
fn tasks_await(header: Header, tasks: &Tasks, objects: &Objects) -> bool
    requires { (header.made ≤ object_limit) × (header.next ≤ task_limit) }
    ensures { result ≡ all_below header.next (λ t. blocked_awaits header.made (object_in objects) t (blocked_on (task_in tasks t).state)) }
{
    (0..header.next).all(|t| blocked_awaits(header.made, tasks, objects, TaskId(t)))
}

// A task in state `s`, if it lives, is blocked on object `o`.
#[tactic(auto, unfolding(machine::specs::Tests::implies, machine::specs::Sound::blocked_at, machine::specs::Scheduler::blocked_on))]
fn waits_for(s: TaskState, o: HeapId) -> bool
    ensures { result ≡ implies (is_live s) (blocked_at (blocked_on s) o.0) }
{
    match s {
        TaskState::Absent => true,
        TaskState::Blocked(b) => b == o,
        _ => false,
    }
}

// The awaiter of object `o`, if it is a live task, is blocked on `o`.
fn awaiter_blocked(tasks: &Tasks, objects: &Objects, o: HeapId) -> bool
    requires { o.0 < object_limit }
    ensures { result ≡ awaiter_blocked (task_in tasks) o.0 (awaiter_of (object_in objects o.0)) }
{
    match awaiter_at(objects, o) {
        Awaiter::Task(t) => waits_for(state_at(tasks, t), o),
        _ => true,
    }
}

// Of every object.
fn awaiters_blocked(made: u16, tasks: &Tasks, objects: &Objects) -> bool
    requires { made ≤ object_limit }
    ensures { result ≡ all_below made (λ o. awaiter_blocked (task_in tasks) o (awaiter_of (object_in objects o))) }
{
    (0..made).all(|o| awaiter_blocked(tasks, objects, HeapId(o)))
}

// Both ways.
#[tactic(auto, using(sound_words::specs::Loops::both), unfolding(machine::specs::Sound::blocked_match))]
pub fn blocked_match(header: Header, tasks: &Tasks, objects: &Objects) -> bool
    requires { (header.made ≤ object_limit) × (header.next ≤ task_limit) }
    ensures { result ≡ blocked_match header (object_in objects) (task_in tasks) }
{
    tasks_await(header, tasks, objects) && awaiters_blocked(header.made, tasks, objects)
}
