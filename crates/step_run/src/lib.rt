// Events of the running task: await, complete, fail.
#![tactic(auto)]

ghost use Rattle.machine.specs.Machine.{Event};
ghost use Rattle.exec_switch.specs.Answer.{answer_or, Answers, AnswersKeepingPlaces};
ghost use Rattle.step_checks.specs.Checked.{checked};

use asyncio::{Error, HeapId, Objects, Places, Tasks, Value};
use exec_await::exec_get_awaitable;
use exec_switch::answer::{Answer, Refusal};
use queue::ReadyQueue;
use rows::tables::load_header;
use sound_rows::values::value_known;
use step_checks::refusals::running;

// The running task awaits an object.
pub fn await_object(
    tasks: &mut Tasks,
    objects: &mut Objects,
    places: &mut Places,
    queue: &mut ReadyQueue,
    o: u16,
) -> Result<Answer, Refusal>
    ensures { Answers tasks objects places queue (λ s. checked s (Event.await o)) (answer_or result) }
{
    let t = running(objects)?;
    let header = load_header(objects);
    if header.made <= o {
        return Err(Refusal::Unknown);
    }
    let a = exec_get_awaitable(tasks, objects, places, queue, t, HeapId::new(o));
    Ok(Answer::Awaited {
        control: a.control,
        steps: a.steps,
    })
}

// The running task completes with a value.
pub fn complete(
    tasks: &mut Tasks,
    objects: &mut Objects,
    places: &mut Places,
    queue: &mut ReadyQueue,
    value: Value,
) -> Result<Answer, Refusal>
    ensures { Answers tasks objects places queue (λ s. checked s (Event.complete value)) (answer_or result) }
{
    let t = running(objects)?;
    let header = load_header(objects);
    if !value_known(header.made, objects, value) {
        return Err(Refusal::Unknown);
    }
    Ok(exec_ends::complete(tasks, objects, places, queue, t, value))
}

// The running task fails with the error script n.
pub fn fail(
    tasks: &mut Tasks,
    objects: &mut Objects,
    queue: &mut ReadyQueue,
    n: u32,
) -> Result<Answer, Refusal>
    ensures { AnswersKeepingPlaces tasks objects queue (λ s. checked s (Event.fail n)) (answer_or result) }
{
    let t = running(objects)?;
    Ok(exec_ends::fail(tasks, objects, queue, t, Error::Script(n)))
}
