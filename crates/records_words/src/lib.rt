// The entries of `session` on the words of task records, and how many records they write.
#![tactic(auto)]

ghost use Rattle.std.specs.Prelude.{◌≡◌, ◌≤◌};
ghost use Rattle.asyncio.specs.Limits.{task_limit};
ghost use Rattle.asyncio.specs.States.{pick};
ghost use Rattle.machine.specs.Machine as machine;
ghost use Rattle.exec_switch.specs.Answer.{answer_of};
ghost use Rattle.step_read.specs.Reads.{show_answer};
ghost use Rattle.step_event.specs.EventOf.{event_of};
ghost use Rattle.records_words.specs.RowsInUse.{next_in, rows_in_use, refuses};
ghost use Rattle.records_words.specs.OnWords.{WordsStep, WordsBegin, WordsRead};

use asyncio::{OBJECTS_LEN, TASKS};
use exec_switch::answer::{Answer, Refusal, Stepped};
use queue::ReadyQueue;
use rows::tables::load_header;
use step_event::{Answered, Event};
use step_read::Shown;

// What an event or a beginning answers, and how many records are to be saved.
#[derive(Drop)]
pub struct Worked<T> {
    pub answered: T,
    pub rows: u16,
}

// The number of the next task: the records below it are in use.
fn next_in(objects: &[u64]) -> u16
    ensures { (result ≡ next_in objects.now) × (result ≤ task_limit) }
{
    match objects.as_array::<OBJECTS_LEN>() {
        Some(objects) => load_header(objects).next,
        None => 0,
    }
}

// How many of `records` records are to be laid out.
pub fn rows_in_use(records: usize, objects: &[u64]) -> u16
    ensures { (result ≡ rows_in_use records objects.now) × (result ≤ records) × (result ≤ task_limit) }
{
    if records == TASKS {
        next_in(objects)
    } else {
        0
    }
}

// How many records are to be saved after an answer: so many, or none where it is a refusal.
fn rows_after(answer: Answer, rows: u16) -> u16
    ensures { (result ≡ pick (refuses answer) 0 rows) × (result ≤ rows) }
{
    match answer {
        Answer::Refused(_) => 0,
        _ => rows,
    }
}

// An event on the words of `records` records. A refused event saves none.
pub fn dispatch(
    records: usize,
    words: &mut [u64],
    objects: &mut [u64],
    places: &mut [u64],
    calls: &mut [u64],
    queue: ReadyQueue,
    event: Event,
    items: &[u16],
    results: &[u8],
) -> Worked<Answered>
    ensures { WordsStep records words objects places calls queue (event_of items.now results.now event) result }
{
    if records != TASKS {
        let answered = Answered {
            queue,
            answer: Answer::Refused(Refusal::WrongLength),
            calls: 0,
        };
        return Worked { answered, rows: 0 };
    }
    let answered = session_dispatch::dispatch(
        words, objects, places, calls, queue, event, items, results,
    );
    let rows = rows_after(answered.answer, next_in(objects));
    Worked { answered, rows }
}

// The beginning of a session on the words of `records` records.
pub fn begin(
    records: usize,
    words: &mut [u64],
    objects: &mut [u64],
    places: &mut [u64],
    queue: ReadyQueue,
) -> Worked<Stepped>
    ensures { WordsBegin records words objects places queue result }
{
    if records != TASKS {
        let answered = Stepped {
            queue,
            answer: Answer::Refused(Refusal::WrongLength),
        };
        return Worked { answered, rows: 0 };
    }
    let answered = session_begin::begin(words, objects, places, queue);
    let rows = rows_after(answered.answer, 513);
    Worked { answered, rows }
}

// What object `o` is and has.
pub fn show(
    records: usize,
    words: &[u64],
    objects: &[u64],
    places: &[u64],
    queue: ReadyQueue,
    o: u16,
) -> Result<Shown, Refusal>
    ensures { WordsRead records words.now objects.now places.now queue (machine.Event.show o) (show_answer places.now result) }
{
    if records != TASKS {
        return Err(Refusal::WrongLength);
    }
    session_reads::show(words, objects, places, queue, o)
}

// May the host answer a call at once?
pub fn eager(
    records: usize,
    words: &[u64],
    objects: &[u64],
    places: &[u64],
    queue: ReadyQueue,
) -> Answer
    ensures { WordsRead records words.now objects.now places.now queue machine.Event.eager (answer_of objects.now result) }
{
    if records != TASKS {
        return Answer::Refused(Refusal::WrongLength);
    }
    session_reads::eager(words, objects, places, queue)
}
