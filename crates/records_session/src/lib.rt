// The entries of `session` over a lent slice of 513 task records, in place of the tasks' words.
// The records in use are laid out in words, the entry of `session` runs on these, and they go back. All entries ask nothing of their caller: another number
// of records than 513, or a slice of a wrong length, is refused with 1, a store that is not sound with 2, and so on in the order of document 01's table; a
// refused event leaves the records, the slices, the list of calls and the queue as they were. What an entry answers is in `Answered`: the queue to pass
// back, the answer, and of a wait how many calls stand at the list's front.
#![tactic(auto)]

ghost use Rattle.std.specs.Prelude.{[]};
ghost use Rattle.machine.specs.Machine as machine;
ghost use Rattle.exec_switch.specs.Answer.{answer_of};
ghost use Rattle.exec_futures.specs.Results.{results_in};
ghost use Rattle.step_read.specs.Reads.{show_answer};
ghost use Rattle.step_event.specs.EventOf.{event_of};
ghost use Rattle.records_session.specs.RecordsContract.{RecordsStep, RecordsBegin, RecordsRead};

use asyncio::{TASKS_LEN, Value};
use exec_switch::answer::{Answer, Refusal, Stepped};
use queue::ReadyQueue;
use records_tasks::{TaskRecord, load, save};
use records_words::rows_in_use;
use step_event::{Answered, Event};
use step_read::Shown;

// A fresh session: main runs, and nothing else exists, whatever the records and slices held. Done, with the queue to pass back. Refused with 1 where there
// is another number of records than 513, or a slice has another length than 2,056 and 2,048; then nothing is changed.
pub fn begin(
    tasks: &mut [TaskRecord],
    objects: &mut [u64],
    places: &mut [u64],
    queue: ReadyQueue,
) -> Stepped
    ensures { RecordsBegin tasks objects places queue result }
{
    let mut words = [0; TASKS_LEN];
    let begun = records_words::begin(tasks.len(), &mut words, objects, places, queue);
    save(tasks, &words, begun.rows);
    begun.answered
}

// Any event of kinds 1 to 11 on any memory.
pub fn dispatch(
    tasks: &mut [TaskRecord],
    objects: &mut [u64],
    places: &mut [u64],
    calls: &mut [u64],
    queue: ReadyQueue,
    event: Event,
    items: &[u16],
    results: &[u8],
) -> Answered
    ensures { RecordsStep tasks objects places calls queue (event_of items.now results.now event) result }
{
    let records = tasks.len();
    let mut words = load(tasks, rows_in_use(records, objects));
    let worked = records_words::dispatch(
        records, &mut words, objects, places, calls, queue, event, items, results,
    );
    save(tasks, &words, worked.rows);
    worked.answered
}

// The same for an event that has no items and no results.
fn dispatch_plain(
    tasks: &mut [TaskRecord],
    objects: &mut [u64],
    places: &mut [u64],
    calls: &mut [u64],
    queue: ReadyQueue,
    event: Event,
) -> Answered
    ensures { RecordsStep tasks objects places calls queue (event_of [] [] event) result }
{
    dispatch(tasks, objects, places, calls, queue, event, &[], &[])
}

// What object `o` is and has. Refused with 1, 2, 5 (not made); nothing is ever changed.
pub fn show(
    tasks: &[TaskRecord],
    objects: &[u64],
    places: &[u64],
    queue: ReadyQueue,
    o: u16,
) -> Result<Shown, Refusal>
    ensures { RecordsRead tasks.now objects.now places.now queue (machine.Event.show o) (show_answer places.now result) }
{
    let records = tasks.len();
    let words = load(tasks, rows_in_use(records, objects));
    records_words::show(records, &words, objects, places, queue, o)
}

// May the host answer a call at once: is no task ready and no call pending? Refused with 1 and 2; nothing is ever changed.
pub fn eager(tasks: &[TaskRecord], objects: &[u64], places: &[u64], queue: ReadyQueue) -> Answer
    ensures { RecordsRead tasks.now objects.now places.now queue machine.Event.eager (answer_of objects.now result) }
{
    let records = tasks.len();
    let words = load(tasks, rows_in_use(records, objects));
    records_words::eager(records, &words, objects, places, queue)
}

// The running task makes a coroutine of a function. Made: its object. Refused with 3 and 4 (session ended, wrong moment), 7 (a 257th object).
pub fn coroutine(
    tasks: &mut [TaskRecord],
    objects: &mut [u64],
    places: &mut [u64],
    calls: &mut [u64],
    queue: ReadyQueue,
    function: u32,
) -> Answered
    ensures { RecordsStep tasks objects places calls queue (machine.Event.coroutine function) result }
{
    dispatch_plain(
        tasks,
        objects,
        places,
        calls,
        queue,
        Event::Coroutine(function),
    )
}

// The running task calls the host. Called: the call's number. Refused with 3, 4, and 8 (all numbers are handed out).
pub fn call(
    tasks: &mut [TaskRecord],
    objects: &mut [u64],
    places: &mut [u64],
    calls: &mut [u64],
    queue: ReadyQueue,
) -> Answered
    ensures { RecordsStep tasks objects places calls queue machine.Event.call result }
{
    dispatch_plain(tasks, objects, places, calls, queue, Event::Call)
}

// A call that the host did not answer at once is made an external future, with a stored result, which replaces the host's later, or without. Made:
// its object. Refused with 3, 4, 5 (a number not handed out, a list of a gather not completed), 6 (pending already), 7.
pub fn pending(
    tasks: &mut [TaskRecord],
    objects: &mut [u64],
    places: &mut [u64],
    calls: &mut [u64],
    queue: ReadyQueue,
    call: u32,
    stored: Option<Value>,
) -> Answered
    ensures { RecordsStep tasks objects places calls queue (machine.Event.pending call stored) result }
{
    dispatch_plain(
        tasks,
        objects,
        places,
        calls,
        queue,
        Event::Pending { call, stored },
    )
}

// An external future that has its value already; it is handed a call number too. Made: its object. Refused with 3, 4, 5, 7, 8.
pub fn settled(
    tasks: &mut [TaskRecord],
    objects: &mut [u64],
    places: &mut [u64],
    calls: &mut [u64],
    queue: ReadyQueue,
    value: Value,
) -> Answered
    ensures { RecordsStep tasks objects places calls queue (machine.Event.settled value) result }
{
    dispatch_plain(tasks, objects, places, calls, queue, Event::Settled(value))
}

// A gather of objects, by their numbers. Made: its object. Refused with 3, 4, 5 (an object not made), 7 (a 257th object, over 32 items, over 512 places).
pub fn gather(
    tasks: &mut [TaskRecord],
    objects: &mut [u64],
    places: &mut [u64],
    calls: &mut [u64],
    queue: ReadyQueue,
    items: &[u16],
) -> Answered
    ensures { RecordsStep tasks objects places calls queue (machine.Event.gather items.now) result }
{
    dispatch(
        tasks,
        objects,
        places,
        calls,
        queue,
        Event::Gather,
        items,
        &[],
    )
}

// The running task awaits an object. Awaited: who runs, or a wait, and the commit steps. Refused with 3, 4, 5.
pub fn await_object(
    tasks: &mut [TaskRecord],
    objects: &mut [u64],
    places: &mut [u64],
    calls: &mut [u64],
    queue: ReadyQueue,
    o: u16,
) -> Answered
    ensures { RecordsStep tasks objects places calls queue (machine.Event.await o) result }
{
    dispatch_plain(tasks, objects, places, calls, queue, Event::Await(o))
}

// The running task completes with a value. Switched: who runs, or a wait; Finished: it was main. Refused with 3, 4, 5.
pub fn complete(
    tasks: &mut [TaskRecord],
    objects: &mut [u64],
    places: &mut [u64],
    calls: &mut [u64],
    queue: ReadyQueue,
    value: Value,
) -> Answered
    ensures { RecordsStep tasks objects places calls queue (machine.Event.complete value) result }
{
    dispatch_plain(tasks, objects, places, calls, queue, Event::Complete(value))
}

// The running task fails with the error script n. Switched: who runs, or a wait; FinishedError: it was main. Refused with 3, 4.
pub fn fail(
    tasks: &mut [TaskRecord],
    objects: &mut [u64],
    places: &mut [u64],
    calls: &mut [u64],
    queue: ReadyQueue,
    n: u32,
) -> Answered
    ensures { RecordsStep tasks objects places calls queue (machine.Event.fail n) result }
{
    dispatch_plain(tasks, objects, places, calls, queue, Event::Fail(n))
}

// The host answers calls: results of 14 bytes each in document 01's layout (call 4, kind 1, value 9). Bytes behind the last whole result are not
// read. The tasks that the batch wakes go to the queue's back, lowest number first. Done. Refused with 3, 5, 10, and then no result is applied.
pub fn results(
    tasks: &mut [TaskRecord],
    objects: &mut [u64],
    places: &mut [u64],
    calls: &mut [u64],
    queue: ReadyQueue,
    results: &[u8],
) -> Answered
    ensures { RecordsStep tasks objects places calls queue (machine.Event.results (results_in results.now)) result }
{
    dispatch(
        tasks,
        objects,
        places,
        calls,
        queue,
        Event::Results,
        &[],
        results,
    )
}

// The host hands control back. Switched: the next ready task runs, or, with none ready, the wait again; Stalled: no call is pending. Refused with 3, 4.
pub fn resume(
    tasks: &mut [TaskRecord],
    objects: &mut [u64],
    places: &mut [u64],
    calls: &mut [u64],
    queue: ReadyQueue,
) -> Answered
    ensures { RecordsStep tasks objects places calls queue machine.Event.resume result }
{
    dispatch_plain(tasks, objects, places, calls, queue, Event::Resume)
}

// The operator cancels task `t`: it goes, and with it the live tasks of the open items of the gather that it is blocked on, through nested gathers.
// Cancelled, with the number of removed tasks that stood in the ready queue; those that stay there keep their order. What a task that went awaited stays
// awaited, a gather too. Refused with 3, 4, 5 (the task is not live), 9 (it is main).
pub fn cancel(
    tasks: &mut [TaskRecord],
    objects: &mut [u64],
    places: &mut [u64],
    calls: &mut [u64],
    queue: ReadyQueue,
    t: u16,
) -> Answered
    ensures { RecordsStep tasks objects places calls queue (machine.Event.cancel t) result }
{
    dispatch_plain(tasks, objects, places, calls, queue, Event::Cancel(t))
}
