// Events that make: coroutine, call, pending, settled, gather.
#![tactic(auto)]

ghost use Rattle.std.specs.Prelude.{◌≡◌, ◌||◌, ◌≤◌, ◌+◌, ltb, leb, length};
ghost use Rattle.asyncio.specs.Limits.{object_limit, item_limit, place_limit};
ghost use Rattle.machine.specs.Machine.{Event};
ghost use Rattle.step_checks.specs.Checked.{checked};
ghost use Rattle.exec_switch.specs.Answer.{answer_or, AnswersOfObjects, AnswersOfObjectsAndPlaces};

use asyncio::{CallId, ITEMS, OBJECTS, Objects, PLACES, Places, Value};
use exec_futures::making::{
    allocate_call_id, make_coroutine, make_gather, push_pending_future, settled_awaitable,
};
use exec_switch::answer::{Answer, Refusal};
use rows::tables::load_header;
use scheduler::tasks::take_pending_external;
use sound_rows::values::{option_known, value_known};
use step_checks::refusals::{any_unmade, is_full, no_number, running};

// A coroutine of a function is made.
pub fn coroutine(objects: &mut Objects, function: u32) -> Result<Answer, Refusal>
    ensures { AnswersOfObjects objects
        (λ s. checked s (Event.coroutine function)) (answer_or result) }
{
    running(objects)?;
    if is_full(objects) {
        return Err(Refusal::NoRoom);
    }
    let o = make_coroutine(objects, function);
    Ok(Answer::Made(o))
}

// A call number is handed out.
pub fn call(objects: &mut Objects) -> Result<Answer, Refusal>
    ensures { AnswersOfObjects objects (λ s. checked s Event.call) (answer_or result) }
{
    running(objects)?;
    if no_number(objects) {
        return Err(Refusal::NoCallNumber);
    }
    let n = allocate_call_id(objects);
    Ok(Answer::Called(n))
}

// An external of a call is made pending, with a stored result or none.
pub fn pending(objects: &mut Objects, call: u32, stored: Option<Value>) -> Result<Answer, Refusal>
    ensures { AnswersOfObjects objects
        (λ s. checked s (Event.pending call stored)) (answer_or result) }
{
    running(objects)?;
    let header = load_header(objects);
    if header.calls <= call || !option_known(header.made, objects, stored) {
        return Err(Refusal::Unknown);
    }
    if take_pending_external(objects, call).is_some() {
        return Err(Refusal::PendingAlready);
    }
    if is_full(objects) {
        return Err(Refusal::NoRoom);
    }
    let o = push_pending_future(objects, CallId::new(call), stored);
    Ok(Answer::Made(o))
}

// An external that has its value already.
pub fn settled(objects: &mut Objects, value: Value) -> Result<Answer, Refusal>
    ensures { AnswersOfObjects objects
        (λ s. checked s (Event.settled value)) (answer_or result) }
{
    running(objects)?;
    let header = load_header(objects);
    if !value_known(header.made, objects, value) {
        return Err(Refusal::Unknown);
    }
    if is_full(objects) {
        return Err(Refusal::NoRoom);
    }
    if no_number(objects) {
        return Err(Refusal::NoCallNumber);
    }
    let o = settled_awaitable(objects, value);
    Ok(Answer::Made(o))
}

// A gather of objects.
pub fn gather(objects: &mut Objects, places: &mut Places, items: &[u16]) -> Result<Answer, Refusal>
    ensures { AnswersOfObjectsAndPlaces objects places
        (λ s. checked s (Event.gather items.now)) (answer_or result) }
{
    running(objects)?;
    let header = load_header(objects);
    if any_unmade(header.made, items) {
        return Err(Refusal::Unknown);
    }
    if too_many(header.made, header.used, items) {
        return Err(Refusal::NoRoom);
    }
    let o = make_gather(objects, places, items);
    Ok(Answer::Made(o))
}

// A 257th object, over 32 items, or over 512 item places in all?
fn too_many(made: u16, used: u16, items: &[u16]) -> bool
    requires { used ≤ place_limit }
    ensures { result ≡ (leb object_limit made || ltb item_limit (length items.now)
        || ltb place_limit (used + length items.now)) }
{
    OBJECTS <= made as usize || ITEMS < items.len() || PLACES < used as usize + items.len()
}
