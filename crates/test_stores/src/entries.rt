// An entry of the library, by its number, on the slices as they are lent.
use crate::store::Store;
use asyncio::Value;
use exec_switch::answer::Answer;
use queue::ReadyQueue;
use session_begin::begin;
use session_dispatch::dispatch;
use session_reads::{eager, show};
use step_event::Event;

fn event_of(kind: u64, n: u64) -> Event {
    match kind {
        1 => Event::Coroutine((n % 4294967296) as u32),
        2 => Event::Call,
        3 => Event::Pending {
            call: (n % 4294967296) as u32,
            stored: None,
        },
        4 => Event::Settled(Value::Plain(n)),
        5 => Event::Gather,
        6 => Event::Await((n % 65536) as u16),
        7 => Event::Complete(Value::Plain(n)),
        8 => Event::Fail((n % 4294967296) as u32),
        9 => Event::Results,
        10 => Event::Resume,
        _ => Event::Cancel((n % 65536) as u16),
    }
}

// The queue after the entry, and what it answers. A gather is of the n % 4 objects from n / 10 on; the results are one, plain 0 for call 0. Of `show` it is
// that something is shown, or the refusal.
fn enter(
    tasks: &mut [u64],
    objects: &mut [u64],
    places: &mut [u64],
    calls: &mut [u64],
    queue: ReadyQueue,
    kind: u64,
    n: u64,
) -> (ReadyQueue, Answer) {
    match kind {
        0 => {
            let begun = begin(tasks, objects, places, queue);
            (begun.queue, begun.answer)
        }
        12 => match show(tasks, objects, places, queue, 0) {
            Ok(_) => (queue, Answer::Done),
            Err(refusal) => (queue, Answer::Refused(refusal)),
        },
        13 => (queue, eager(tasks, objects, places, queue)),
        _ => {
            let first = (n / 10 % 256) as u16;
            let items = [first, first + 1, first + 2];
            let answered = dispatch(
                tasks,
                objects,
                places,
                calls,
                queue,
                event_of(kind, n),
                &items[..(n % 4) as usize],
                &[0; 14],
            );
            (answered.queue, answered.answer)
        }
    }
}

// The entry on the first words of the slices, as many as are lent: what it answers, unless more are lent than there are.
pub(crate) fn entered(store: &mut Store, calls: &mut [u64], kind: u64, n: u64) -> Option<Answer> {
    let lent = store.lent;
    if store.tasks.len() < lent.tasks
        || store.objects.len() < lent.objects
        || store.places.len() < lent.places
        || calls.len() < lent.calls
    {
        return None;
    }
    let mut after = *store;
    let (queue, answer) = enter(
        &mut after.tasks[..lent.tasks],
        &mut after.objects[..lent.objects],
        &mut after.places[..lent.places],
        &mut calls[..lent.calls],
        after.queue,
        kind,
        n,
    );
    after.queue = queue;
    *store = after;
    Some(answer)
}
