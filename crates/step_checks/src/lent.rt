// Lent memory: the lengths that refusal 1 asks for, and the list of calls that a wait writes.
ghost use Rattle.std.specs.Prelude.{◌≡◌, ◌&&◌, ◌≤◌, leb, length};
ghost use Rattle.asyncio.specs.Limits.{object_limit};
ghost use Rattle.step_checks.specs.Lent.{is_wait, slices_fit, WritesWait};

use asyncio::{OBJECTS, OBJECTS_LEN, Objects, PLACES_LEN, TASKS_LEN};
use exec_switch::answer::Answer;
use exec_switch::control::Control;
use scheduler::calls::pending_call_ids;

// Have the slices of the store their lengths?
pub fn slices_right(tasks: &[u64], objects: &[u64], places: &[u64]) -> bool
    ensures { result ≡ slices_fit tasks.now objects.now places.now }
{
    tasks.len() == TASKS_LEN && objects.len() == OBJECTS_LEN && places.len() == PLACES_LEN
}

// Has the list of calls room for every wait, too?
pub fn lengths_right(tasks: &[u64], objects: &[u64], places: &[u64], calls: &[u64]) -> bool
    ensures { result ≡ (slices_fit tasks.now objects.now places.now && leb object_limit (length calls.now)) }
{
    slices_right(tasks, objects, places) && OBJECTS <= calls.len()
}

// Is it a wait?
fn is_wait(answer: Answer) -> bool
    ensures { result ≡ is_wait answer }
{
    matches!(
        answer,
        Answer::Switched(Control::Waits)
            | Answer::Awaited {
                control: Control::Waits,
                steps: _,
            }
    )
}

// A wait writes the pending calls at the list's front, and it is told how many there are. After any other answer the list keeps its contents, and
// there are 0.
pub fn write_calls(objects: &Objects, calls: &mut [u64], answer: Answer) -> usize
    requires { object_limit ≤ length calls.old }
    ensures { WritesWait objects.now calls answer result }
{
    if is_wait(answer) {
        pending_call_ids(objects, calls)
    } else {
        0
    }
}
