// The entries of what the running task does, kinds 6 to 8 of document 01: await, complete, fail.
// All of them lend the same memory and ask nothing of their caller: a slice of the wrong length is refused with 1, a store that is not sound with 2, and so
// on in the order of document 01's table; a refused event leaves the slices, the list of calls and the queue as they were. What an entry answers is in
// `Answered`: the queue to pass back, the answer, and of a wait how many calls stand at the list's front.
#![tactic(auto)]

ghost use Rattle.machine.specs.Machine as machine;
ghost use Rattle.step_event.specs.LentStep.{LentStep};

use asyncio::Value;
use queue::ReadyQueue;
use session_dispatch::dispatch_plain;
use step_event::{Answered, Event};

// The running task awaits an object. Awaited: who runs, or a wait, and the commit steps. Refused with 3, 4, 5.
pub fn await_object(
    tasks: &mut [u64],
    objects: &mut [u64],
    places: &mut [u64],
    calls: &mut [u64],
    queue: ReadyQueue,
    o: u16,
) -> Answered
    ensures { LentStep tasks objects places calls queue (machine.Event.await o) result }
{
    dispatch_plain(tasks, objects, places, calls, queue, Event::Await(o))
}

// The running task completes with a value. Switched: who runs, or a wait; Finished: it was main. Refused with 3, 4, 5.
pub fn complete(
    tasks: &mut [u64],
    objects: &mut [u64],
    places: &mut [u64],
    calls: &mut [u64],
    queue: ReadyQueue,
    value: Value,
) -> Answered
    ensures { LentStep tasks objects places calls queue (machine.Event.complete value) result }
{
    dispatch_plain(tasks, objects, places, calls, queue, Event::Complete(value))
}

// The running task fails with the error script n. Switched: who runs, or a wait; FinishedError: it was main. Refused with 3, 4.
pub fn fail(
    tasks: &mut [u64],
    objects: &mut [u64],
    places: &mut [u64],
    calls: &mut [u64],
    queue: ReadyQueue,
    n: u32,
) -> Answered
    ensures { LentStep tasks objects places calls queue (machine.Event.fail n) result }
{
    dispatch_plain(tasks, objects, places, calls, queue, Event::Fail(n))
}
