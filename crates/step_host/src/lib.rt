// Events of the host: results, resume, cancel.
#![tactic(auto)]

ghost use Rattle.std.specs.Prelude.{◌≡◌};
ghost use Rattle.rows.specs.Tables.{header_at};
ghost use Rattle.machine.specs.Sound.{is_ended};
ghost use Rattle.machine.specs.Machine.{Event};
ghost use Rattle.contract.specs.Contract.{kept};
ghost use Rattle.exec_switch.specs.Answer.{answer_or, Answers, AnswersKeepingPlaces};
ghost use Rattle.exec_futures.specs.Results.{results_in};
ghost use Rattle.step_checks.specs.Checked.{checked};

use asyncio::{Moment, Objects, Places, RESULT_BYTES, RESULTS, TaskId, Tasks};
use exec_ends::resume_with_resolved_futures;
use exec_futures::results::apply_future_results;
use exec_switch::answer::{Answer, Refusal};
use queue::ReadyQueue;
use rows::tables::load_header;
use scheduler_cancel::cancel::cancel_task;
use step_checks::refusals::{any_bad, any_unknown, not_live, waiting};

// Has the session ended?
fn is_ended(objects: &Objects) -> bool
    ensures { result ≡ is_ended (header_at objects.now).moment }
{
    matches!(load_header(objects).moment, Moment::Ended)
}

// The host answers calls. All checks come before the first result is applied.
pub fn results(
    tasks: &mut Tasks,
    objects: &mut Objects,
    places: &mut Places,
    queue: &mut ReadyQueue,
    results: &[u8],
) -> Result<Answer, Refusal>
    ensures { Answers tasks objects places queue (λ s. checked s (Event.results (results_in results.now))) (answer_or result) }
{
    if is_ended(objects) {
        return Err(Refusal::SessionEnded);
    }
    if any_unknown(objects, results) {
        return Err(Refusal::Unknown);
    }
    if RESULTS < results.len() / RESULT_BYTES || any_bad(results) {
        return Err(Refusal::BadResult);
    }
    apply_future_results(tasks, objects, places, queue, results);
    Ok(Answer::Done)
}

// The host hands control back.
pub fn resume(
    tasks: &mut Tasks,
    objects: &mut Objects,
    queue: &mut ReadyQueue,
) -> Result<Answer, Refusal>
    ensures { AnswersKeepingPlaces tasks objects queue (λ s. checked s Event.resume) (answer_or result) }
{
    waiting(objects)?;
    Ok(resume_with_resolved_futures(tasks, objects, queue))
}

// The operator cancels task `t`: it goes, and with it the live tasks of the open items of the gather that it is blocked on, through nested gathers.
// Cancelled, with the number of removed tasks that stood in the ready queue. Refused after the session's end, while a task runs, where `t` is not
// live, and where it is main. The objects and the places stay as they were, refused or not: what a task that went awaited stays awaited.
pub fn cancel(
    tasks: &mut Tasks,
    objects: &Objects,
    places: &Places,
    queue: &mut ReadyQueue,
    t: u16,
) -> Result<Answer, Refusal>
    ensures { Answers tasks (kept objects.now) (kept places.now) queue (λ s. checked s (Event.cancel t)) (answer_or result) }
{
    waiting(objects)?;
    if not_live(tasks, objects, t) {
        return Err(Refusal::Unknown);
    }
    if t == 0 {
        return Err(Refusal::MainCancelled);
    }
    let before = queue.len;
    cancel_task(tasks, objects, places, queue, TaskId::new(t));
    Ok(Answer::Cancelled((before - queue.len) as u16))
}
