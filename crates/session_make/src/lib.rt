// The entries of what the running task makes, kinds 1 to 5 of document 01: coroutine, call, pending, settled, gather.
// All of them lend the same memory and ask nothing of their caller: a slice of the wrong length is refused with 1, a store that is not sound with 2, and so
// on in the order of document 01's table; a refused event leaves the slices, the list of calls and the queue as they were. What an entry answers is in
// `Answered`: the queue to pass back, the answer, and of a wait how many calls stand at the list's front.
#![tactic(auto)]

ghost use Rattle.machine.specs.Machine as machine;
ghost use Rattle.step_event.specs.LentStep.{LentStep};

use asyncio::Value;
use queue::ReadyQueue;
use session_dispatch::{dispatch, dispatch_plain};
use step_event::{Answered, Event};

// The running task makes a coroutine of a function. Made: its object. Refused with 3 and 4 (session ended, wrong moment), 7 (a 257th object).
pub fn coroutine(
    tasks: &mut [u64],
    objects: &mut [u64],
    places: &mut [u64],
    calls: &mut [u64],
    queue: ReadyQueue,
    function: u32,
) -> Answered
    ensures { LentStep tasks objects places calls queue (machine.Event.coroutine function) result }
{
    dispatch_plain(
        tasks,
        objects,
        places,
        calls,
        queue,
        Event::Coroutine(function),
    )
}

// The running task calls the host. Called: the call's number. Refused with 3, 4, and 8 (all numbers are handed out).
pub fn call(
    tasks: &mut [u64],
    objects: &mut [u64],
    places: &mut [u64],
    calls: &mut [u64],
    queue: ReadyQueue,
) -> Answered
    ensures { LentStep tasks objects places calls queue machine.Event.call result }
{
    dispatch_plain(tasks, objects, places, calls, queue, Event::Call)
}

// A call that the host did not answer at once is made an external future, with a stored result, which replaces the host's later, or without. Made:
// its object. Refused with 3, 4, 5 (a number not handed out, a list of a gather not completed), 6 (pending already), 7.
pub fn pending(
    tasks: &mut [u64],
    objects: &mut [u64],
    places: &mut [u64],
    calls: &mut [u64],
    queue: ReadyQueue,
    call: u32,
    stored: Option<Value>,
) -> Answered
    ensures { LentStep tasks objects places calls queue (machine.Event.pending call stored) result }
{
    dispatch_plain(
        tasks,
        objects,
        places,
        calls,
        queue,
        Event::Pending { call, stored },
    )
}

// An external future that has its value already; it is handed a call number too. Made: its object. Refused with 3, 4, 5, 7, 8.
pub fn settled(
    tasks: &mut [u64],
    objects: &mut [u64],
    places: &mut [u64],
    calls: &mut [u64],
    queue: ReadyQueue,
    value: Value,
) -> Answered
    ensures { LentStep tasks objects places calls queue (machine.Event.settled value) result }
{
    dispatch_plain(tasks, objects, places, calls, queue, Event::Settled(value))
}

// A gather of objects, by their numbers. Made: its object. Refused with 3, 4, 5 (an object not made), 7 (a 257th object, over 32 items, over 512 places).
pub fn gather(
    tasks: &mut [u64],
    objects: &mut [u64],
    places: &mut [u64],
    calls: &mut [u64],
    queue: ReadyQueue,
    items: &[u16],
) -> Answered
    ensures { LentStep tasks objects places calls queue (machine.Event.gather items.now) result }
{
    dispatch(
        tasks,
        objects,
        places,
        calls,
        queue,
        Event::Gather,
        items,
        &[],
    )
}
