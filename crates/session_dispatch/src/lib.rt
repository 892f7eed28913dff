// Any event on any memory: refusals 1 and 2, then `step_event::step`.
#![tactic(auto)]

ghost use Rattle.std.specs.Prelude.{[], ◌∷◌};
ghost use Rattle.step_event.specs.EventOf.{event_of};
ghost use Rattle.step_event.specs.LentStep.{LentStep};

use exec_switch::answer::{Answer, Refusal};
use queue::ReadyQueue;
use sound::is_sound;
use step_checks::lent::lengths_right;
use step_event::{Answered, Event, step};

// Any event of kinds 1 to 11 on any memory: a slice of a wrong length is refused with 1, a store that is not sound with 2, and so on in the order of
// document 01's table; a refused event leaves everything as it was.
pub fn dispatch(
    tasks: &mut [u64],
    objects: &mut [u64],
    places: &mut [u64],
    calls: &mut [u64],
    queue: ReadyQueue,
    event: Event,
    items: &[u16],
    results: &[u8],
) -> Answered
    ensures { LentStep tasks objects places calls queue (event_of items.now results.now event) result }
{
    if !lengths_right(tasks, objects, places, calls) {
        return Answered {
            queue,
            answer: Answer::Refused(Refusal::WrongLength),
            calls: 0,
        };
    }
    if !is_sound(
        &queue,
        tasks.as_array().unwrap(),
        objects.as_array().unwrap(),
        places.as_array().unwrap(),
    ) {
        return Answered {
            queue,
            answer: Answer::Refused(Refusal::NotSound),
            calls: 0,
        };
    }
    step(tasks, objects, places, calls, queue, event, items, results)
}

// The same for an event that has no items and no results.
pub fn dispatch_plain(
    tasks: &mut [u64],
    objects: &mut [u64],
    places: &mut [u64],
    calls: &mut [u64],
    queue: ReadyQueue,
    event: Event,
) -> Answered
    ensures { LentStep tasks objects places calls queue (event_of (0 ∷ []) (0 ∷ []) event) result }
{
    // Kept: one 0 of each, not empty slices: the clause says of a Gather, too, what it said before.
    dispatch(
        tasks, objects, places, calls, queue, event, &[0; 1], &[0; 1],
    )
}
