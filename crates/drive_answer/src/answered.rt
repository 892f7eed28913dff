// What a record asks, answered by the library, and its line. The store is sound, as it is in a session: it is not checked at each record.
ghost use Rattle.std.specs.Prelude.{◌≡◌, List, ℕ, ◌+◌, ◌*◌, ◌≤◌, length};
ghost use Rattle.machine.specs.Machine as machine;
ghost use Rattle.exec_switch.specs.Answer.{answer_or};
ghost use Rattle.contract.specs.Contract.{kept};
ghost use Rattle.contract.specs.Entries.{SoundMemory, SoundMemoryAnd, SoundSlices};
ghost use Rattle.step_event.specs.EventOf.{event_of};
ghost use Rattle.drive_reader.specs.Items.{items_at};
ghost use Rattle.drive_answer.specs.Driver.{Asked, asked, results_at};
ghost use Rattle.drive_answer.specs.Drove.{WritesAnswer, WritesEvent, InInput, RecordFits};

use asyncio::RESULT_BYTES;
use drive_lines::answers::write_line;
use drive_reader::Record;
use drive_shows::shows::write_reading;
use drive_text::Writer;
use exec_switch::answer::{Answer, Refusal};
use queue::ReadyQueue;
use step_event::Event;

// The queue after a record, where the output stands, the place of the next record, and whether it is to be read: not after the end of
// the input, and not after an 11.
#[derive(Drop)]
pub struct Driven {
    pub queue: ReadyQueue,
    pub at: usize,
    pub next: usize,
    pub going: bool,
}

// An event as its record has it. The results of a batch stand in the input, `count` of 14 bytes each from byte `first` on; the others have none.
#[derive(Drop)]
pub struct Asks {
    pub event: Event,
    pub first: usize,
    pub count: u8,
}

// An event without results.
fn event_alone(event: Event) -> Asks
    ensures { result ≡ record { event = event; first = 0; count = 0 } }
{
    Asks {
        event,
        first: 0,
        count: 0,
    }
}

// An answer, or a refusal as one.
fn answer_or(answered: Result<Answer, Refusal>) -> Answer
    ensures { result ≡ answer_or answered }
{
    match answered {
        Ok(answer) => answer,
        Err(refusal) => Answer::Refused(refusal),
    }
}

// An event and its line.
fn event_line(
    tasks: &mut [u64],
    objects: &mut [u64],
    places: &mut [u64],
    calls: &mut [u64],
    queue: ReadyQueue,
    event: Event,
    items: &[u16],
    results: &[u8],
    next: usize,
    out: &mut [u8],
    at: usize,
    number: u64,
) -> Driven
    requires { SoundMemory tasks.old objects.old places.old calls.old queue }
    ensures { WritesEvent tasks objects places calls queue out at next number (event_of items.now results.now event) result }
{
    let stepped = step_event::step(tasks, objects, places, calls, queue, event, items, results);
    let mut line = Writer::new(out, at);
    write_line(&mut line, number, stepped.answer, &calls[..stepped.calls]);
    Driven {
        queue: stepped.queue,
        at: line.at,
        next,
        going: true,
    }
}

// A gather: its items are copied out of the input. It makes an object or is refused, so the queue and the list of calls stay.
fn gather_line(
    tasks: &[u64],
    objects: &mut [u64],
    places: &mut [u64],
    calls: &[u64],
    queue: ReadyQueue,
    src: &[u8],
    first: usize,
    count: u8,
    next: usize,
    out: &mut [u8],
    at: usize,
    number: u64,
) -> Driven
    requires { SoundMemory tasks.now objects.old places.old calls.now queue }
    ensures { WritesEvent (kept tasks.now) objects places (kept calls.now) queue out at next number (machine.Event.gather (items_at src.now first count)) result }
{
    let mut items: [u16; 255] = [0; 255];
    let n = count as usize;
    drive_reader::items::gather_items(src, first, n, &mut items);
    let store_objects = objects.as_mut_array().unwrap();
    let store_places = places.as_mut_array().unwrap();
    let made = step_make::gather(store_objects, store_places, &items[..n]);
    let mut line = Writer::new(out, at);
    write_line(&mut line, number, answer_or(made), &calls[..0]);
    Driven {
        queue,
        at: line.at,
        next,
        going: true,
    }
}

// A read of an object, and its line.
fn show_line(
    tasks: &[u64],
    objects: &[u64],
    places: &[u64],
    queue: ReadyQueue,
    o: u16,
    next: usize,
    out: &mut [u8],
    at: usize,
    number: u64,
) -> Driven
    requires { SoundSlices tasks.now objects.now places.now queue }
    ensures { (cs : List ℕ) → WritesAnswer (kept tasks.now) (kept objects.now) (kept places.now) (kept cs) queue out at next number (Asked.read (machine.Event.show o)) result }
{
    let reading = step_read::show(objects.as_array().unwrap(), o);
    let mut line = Writer::new(out, at);
    write_reading(&mut line, number, reading, places);
    Driven {
        queue,
        at: line.at,
        next,
        going: true,
    }
}

// Whether a call may be answered at once, and its line.
fn eager_line(
    tasks: &[u64],
    objects: &[u64],
    places: &[u64],
    calls: &[u64],
    queue: ReadyQueue,
    next: usize,
    out: &mut [u8],
    at: usize,
    number: u64,
) -> Driven
    requires { SoundSlices tasks.now objects.now places.now queue }
    ensures { WritesAnswer (kept tasks.now) (kept objects.now) (kept places.now) (kept calls.now) queue out at next number (Asked.read machine.Event.eager) result }
{
    let answer = step_read::eager(objects.as_array().unwrap(), &queue);
    let mut line = Writer::new(out, at);
    write_line(&mut line, number, answer, &calls[..0]);
    Driven {
        queue,
        at: line.at,
        next,
        going: true,
    }
}

// Whatever a record asks, and its line. That the record's numbers fit is the types' doing, and said so that soundness can be kept (`drive_laws`).
pub fn answered(
    tasks: &mut [u64],
    objects: &mut [u64],
    places: &mut [u64],
    calls: &mut [u64],
    queue: ReadyQueue,
    src: &[u8],
    what: Record,
    next: usize,
    out: &mut [u8],
    at: usize,
    number: u64,
) -> Driven
    requires { SoundMemoryAnd tasks.old objects.old places.old calls.old queue (InInput src.now what) }
    ensures { WritesAnswer tasks objects places calls queue out at next number (asked src.now what) result × RecordFits what }
{
    let asks = match what {
        Record::Coroutine(f) => event_alone(Event::Coroutine(f)),
        Record::Call => event_alone(Event::Call),
        Record::Pending { call, stored } => event_alone(Event::Pending { call, stored }),
        Record::Settled(v) => event_alone(Event::Settled(v)),
        Record::Gather { first, count } => {
            return gather_line(
                tasks, objects, places, calls, queue, src, first, count, next, out, at, number,
            );
        }
        Record::Await(o) => event_alone(Event::Await(o)),
        Record::Complete(v) => event_alone(Event::Complete(v)),
        Record::Fail(n) => event_alone(Event::Fail(n)),
        Record::Results { first, count } => Asks {
            event: Event::Results,
            first,
            count,
        },
        Record::Resume => event_alone(Event::Resume),
        Record::Cancel(t) => event_alone(Event::Cancel(t)),
        Record::Show(o) => {
            return show_line(tasks, objects, places, queue, o, next, out, at, number);
        }
        Record::Eager => {
            return eager_line(tasks, objects, places, calls, queue, next, out, at, number);
        }
    };
    let items: [u16; 1] = [0; 1];
    let event = asks.event;
    let first = asks.first;
    let n = (asks.count as usize) * RESULT_BYTES;
    event_line(
        tasks,
        objects,
        places,
        calls,
        queue,
        event,
        &items,
        &src[first..first + n],
        next,
        out,
        at,
        number,
    )
}
