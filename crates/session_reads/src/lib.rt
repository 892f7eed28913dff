// The reads show and eager on any memory: refusals 1, 2 and 5; they change nothing.
#![tactic(auto)]

ghost use Rattle.machine.specs.Machine.{Event};
ghost use Rattle.contract.specs.Entries.{LentRead};
ghost use Rattle.exec_switch.specs.Answer.{answer_of};
ghost use Rattle.step_read.specs.Reads.{show_answer};

use asyncio::Objects;
use exec_switch::answer::{Answer, Refusal};
use queue::ReadyQueue;
use sound::is_sound;
use step_checks::lent::slices_right;
use step_read::Shown;

// What object `o` is and has. Refused with 1, 2, 5 (not made); nothing is ever changed.
pub fn show(
    tasks: &[u64],
    objects: &[u64],
    places: &[u64],
    queue: ReadyQueue,
    o: u16,
) -> Result<Shown, Refusal>
    ensures { LentRead tasks.now objects.now places.now queue (Event.show o) (show_answer places.now result) }
{
    if !slices_right(tasks, objects, places) {
        return Err(Refusal::WrongLength);
    }
    let rows: &Objects = objects.as_array().unwrap();
    if !is_sound(
        &queue,
        tasks.as_array().unwrap(),
        rows,
        places.as_array().unwrap(),
    ) {
        return Err(Refusal::NotSound);
    }
    step_read::show(rows, o)
}

// May the host answer a call at once: is no task ready and no call pending? Refused with 1 and 2; nothing is ever changed.
pub fn eager(tasks: &[u64], objects: &[u64], places: &[u64], queue: ReadyQueue) -> Answer
    ensures { LentRead tasks.now objects.now places.now queue Event.eager (answer_of objects.now result) }
{
    if !slices_right(tasks, objects, places) {
        return Answer::Refused(Refusal::WrongLength);
    }
    let rows: &Objects = objects.as_array().unwrap();
    if !is_sound(
        &queue,
        tasks.as_array().unwrap(),
        rows,
        places.as_array().unwrap(),
    ) {
        return Answer::Refused(Refusal::NotSound);
    }
    step_read::eager(rows, &queue)
}
