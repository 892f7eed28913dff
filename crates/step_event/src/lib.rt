// One event of a sound store, whichever it is, with refusals 3 to 10: `step`.
// It asks its caller for a sound store, and checks nothing of it.
#![tactic(auto)]

ghost use Rattle.contract.specs.Entries.{SoundMemory};
ghost use Rattle.exec_switch.specs.Answer.{answer_or, Answers};
ghost use Rattle.step_checks.specs.Checked.{checked};
ghost use Rattle.step_event.specs.EventOf.{event_of};
ghost use Rattle.step_event.specs.LentStep.{LentStep};

use asyncio::{Objects, Places, Tasks, Value};
use exec_switch::answer::{Answer, Refusal};
use queue::ReadyQueue;

// The events of kinds 1 to 11. The items of a gather and the results of a batch stand in slices of their own.
#[derive(Drop)]
pub enum Event {
    Coroutine(u32),
    Call,
    Pending { call: u32, stored: Option<Value> },
    Settled(Value),
    Gather,
    Await(u16),
    Complete(Value),
    Fail(u32),
    Results,
    Resume,
    Cancel(u16),
}

// What a caller gets: the queue to pass back at the next call, the answer, and of a wait how many calls stand at the front of the list (0: it is no wait).
#[derive(Drop)]
pub struct Answered {
    pub queue: ReadyQueue,
    pub answer: Answer,
    pub calls: usize,
}

// The event with its refusals from 3 on, in the order of document 01's table.
fn checked(
    tasks: &mut Tasks,
    objects: &mut Objects,
    places: &mut Places,
    queue: &mut ReadyQueue,
    event: Event,
    items: &[u16],
    results: &[u8],
) -> Result<Answer, Refusal>
    ensures { Answers tasks objects places queue (λ s. checked s (event_of items.now results.now event)) (answer_or result) }
{
    match event {
        Event::Coroutine(f) => step_make::coroutine(objects, f),
        Event::Call => step_make::call(objects),
        Event::Pending { call, stored } => step_make::pending(objects, call, stored),
        Event::Settled(v) => step_make::settled(objects, v),
        Event::Gather => step_make::gather(objects, places, items),
        Event::Await(o) => step_run::await_object(tasks, objects, places, queue, o),
        Event::Complete(v) => step_run::complete(tasks, objects, places, queue, v),
        Event::Fail(n) => step_run::fail(tasks, objects, queue, n),
        Event::Results => step_host::results(tasks, objects, places, queue, results),
        Event::Resume => step_host::resume(tasks, objects, queue),
        Event::Cancel(t) => step_host::cancel(tasks, objects, places, queue, t),
    }
}

// The event on a sound store of the right lengths, which a session has (`drive_laws`): no check of it is made. Refusals are those from 3 on; a
// refused event leaves everything as it was.
pub fn step(
    tasks: &mut [u64],
    objects: &mut [u64],
    places: &mut [u64],
    calls: &mut [u64],
    mut queue: ReadyQueue,
    event: Event,
    items: &[u16],
    results: &[u8],
) -> Answered
    requires { SoundMemory tasks.old objects.old places.old calls.old queue }
    ensures { LentStep tasks objects places calls queue (event_of items.now results.now event) result }
{
    let store_tasks = tasks.as_mut_array().unwrap();
    let store_objects = objects.as_mut_array().unwrap();
    let store_places = places.as_mut_array().unwrap();
    let answer = match checked(
        store_tasks,
        store_objects,
        store_places,
        &mut queue,
        event,
        items,
        results,
    ) {
        Ok(answer) => answer,
        Err(refusal) => Answer::Refused(refusal),
    };
    let count = step_checks::lent::write_calls(store_objects, calls, answer);
    Answered {
        queue,
        answer,
        calls: count,
    }
}
