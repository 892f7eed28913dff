// The entries of what the host does, kinds 9 to 11 of document 01: results, resume, cancel.
// All of them lend the same memory and ask nothing of their caller: a slice of the wrong length is refused with 1, a store that is not sound with 2, and so
// on in the order of document 01's table; a refused event leaves the slices, the list of calls and the queue as they were. What an entry answers is in
// `Answered`: the queue to pass back, the answer, and of a wait how many calls stand at the list's front.
#![tactic(auto)]

ghost use Rattle.machine.specs.Machine as machine;
ghost use Rattle.exec_futures.specs.Results.{results_in};
ghost use Rattle.step_event.specs.LentStep.{LentStep};

use queue::ReadyQueue;
use session_dispatch::{dispatch, dispatch_plain};
use step_event::{Answered, Event};

// The host answers calls: results of 14 bytes each in document 01's layout (call 4, kind 1, value 9). Bytes behind the last whole result are not
// read. The tasks that the batch wakes go to the queue's back, lowest number first. Done. Refused with 3, 5, 10, and then no result is applied.
pub fn results(
    tasks: &mut [u64],
    objects: &mut [u64],
    places: &mut [u64],
    calls: &mut [u64],
    queue: ReadyQueue,
    results: &[u8],
) -> Answered
    ensures { LentStep tasks objects places calls queue (machine.Event.results (results_in results.now)) result }
{
    dispatch(
        tasks,
        objects,
        places,
        calls,
        queue,
        Event::Results,
        &[],
        results,
    )
}

// The host hands control back. Switched: the next ready task runs, or, with none ready, the wait again; Stalled: no call is pending. Refused with 3, 4.
pub fn resume(
    tasks: &mut [u64],
    objects: &mut [u64],
    places: &mut [u64],
    calls: &mut [u64],
    queue: ReadyQueue,
) -> Answered
    ensures { LentStep tasks objects places calls queue machine.Event.resume result }
{
    dispatch_plain(tasks, objects, places, calls, queue, Event::Resume)
}

// The operator cancels task `t`: it goes, and with it the live tasks of the open items of the gather that it is blocked on, through nested gathers.
// Cancelled, with the number of removed tasks that stood in the ready queue; those that stay there keep their order. What a task that went awaited stays
// awaited, a gather too. Refused with 3, 4, 5 (the task is not live), 9 (it is main).
pub fn cancel(
    tasks: &mut [u64],
    objects: &mut [u64],
    places: &mut [u64],
    calls: &mut [u64],
    queue: ReadyQueue,
    t: u16,
) -> Answered
    ensures { LentStep tasks objects places calls queue (machine.Event.cancel t) result }
{
    dispatch_plain(tasks, objects, places, calls, queue, Event::Cancel(t))
}
