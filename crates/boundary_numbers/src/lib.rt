// An answer as document 01's numbers, by value: what crosses to other languages.
#![tactic(auto)]

ghost use Rattle.std.specs.Prelude.{◌≡◌, ◌+◌, ◌<◌, ◌≤◌, List, ℕ, length};
ghost use Rattle.machine.specs.Answers.{coroutine_number};
ghost use Rattle.machine.specs.Scheduler.{bit};
ghost use Rattle.machine.specs.Machine.{slot_value};
ghost use Rattle.exec_switch.specs.Answer.{answer_with};
ghost use Rattle.step_read.specs.Reads.{places_from, shown_of, show_answer};
ghost use Rattle.boundary_numbers.specs.Numbers.{numbers_as, places_shown, place_said, place_as, slot_said};
ghost use Rattle.boundary_numbers.specs.Code.{said, and_value, refused_as, how_said, control_said, answer_said, shown_said};

use asyncio::words::{error_words, value_words};
use asyncio::{CoroutineState, TaskId, Value};
use exec_switch::answer::{Answer, Refusal};
use exec_switch::control::{Control, How};
use rows::total::result_at;
use step_read::Shown;

// The number of the refusal (0: accepted), the word's number, how many values there are, and the values; those behind them are 0. The calls of a wait stand
// in the list, the places of a gather are read one by one.
#[repr(C)]
#[derive(Clone, Copy, PartialEq, Eq, Debug)]
pub struct Numbers {
    pub refusal: u64,
    pub word: u64,
    pub count: u64,
    pub values: [u64; 6],
}

impl Numbers {
    // An accepted event's word, and its values.
    fn said(word: u64, values: &[u64]) -> Numbers
        requires { length values.now ≤ 6 }
        ensures { result ≡ said word values.now }
    {
        let mut all = [0; 6];
        all[..values.len()].copy_from_slice(values);
        Numbers {
            refusal: 0,
            word,
            count: values.len() as u64,
            values: all,
        }
    }

    // One more value.
    fn and(mut self, value: u64) -> Numbers
        requires { self.count < 6 }
        ensures { result ≡ and_value self value }
    {
        self.values[self.count as usize] = value;
        self.count += 1;
        self
    }

    fn refused(refusal: Refusal) -> Numbers
        ensures { result ≡ refused_as refusal }
    {
        let n = refusal.number() as u64;
        Numbers {
            refusal: n,
            ..Numbers::said(9, &[n])
        }
    }
}

// A task that goes on.
fn runs(task: TaskId, how: How) -> Numbers
    ensures { result ≡ how_said task.0 how }
{
    let t = task.word();
    match how {
        How::Start {
            coroutine,
            function,
        } => Numbers::said(3, &[t, 0, coroutine.word(), function as u64]),
        How::Value(v) => {
            let w = value_words(v);
            Numbers::said(3, &[t, 1, w.0, w.1])
        }
        How::Raised(e) => {
            let w = error_words(e);
            Numbers::said(3, &[t, 2, w.0, w.1])
        }
        How::Inline(c) => Numbers::said(3, &[t, 3, c.word()]),
    }
}

// Who has control; `calls` is how many calls a wait has.
fn control(c: Control, calls: u64) -> Numbers
    ensures { (result ≡ control_said c calls) × (result.count ≤ 4) }
{
    match c {
        Control::Runs { task, how } => runs(task, how),
        Control::Waits => Numbers::said(4, &[calls]),
    }
}

// The same, of each answer.
#[tactic(auto, unfolding(machine::specs::Answers::yes_no))]
fn answer(answer: Answer, calls: u64) -> Numbers
    ensures { result ≡ answer_said answer calls }
{
    match answer {
        Answer::Made(o) => Numbers::said(1, &[o.word()]),
        Answer::Called(n) => Numbers::said(2, &[n.word()]),
        Answer::Switched(c) => control(c, calls),
        Answer::Awaited { control: c, steps } => control(c, calls).and(steps as u64),
        Answer::Done => Numbers::said(5, &[]),
        Answer::Cancelled(n) => Numbers::said(5, &[n as u64]),
        Answer::Stalled => Numbers::said(6, &[]),
        Answer::Finished(v) => {
            let w = value_words(v);
            Numbers::said(7, &[0, w.0, w.1])
        }
        Answer::FinishedError(e) => {
            let w = error_words(e);
            Numbers::said(7, &[1, w.0, w.1])
        }
        Answer::Eager(yes) => Numbers::said(8, &[yes as u64]),
        Answer::Refused(refusal) => Numbers::refused(refusal),
    }
}

// The numbers of an answer; `calls` is how many calls a wait has.
#[tactic(auto, using(crate::proofs::NumbersLaws::same_numbers))]
pub fn numbers_of(a: Answer, calls: u64) -> Numbers
    ensures { (cs : List ℕ) → calls ≡ length cs → result ≡ numbers_as (answer_with cs a) }
{
    answer(a, calls)
}

// What an object shows: its sort and state, and what it has; of a gather's places how many there are.
fn show(x: Shown) -> Numbers
    ensures { result ≡ shown_said x }
{
    match x {
        Shown::Coroutine { state, function } => {
            Numbers::said(10, &[0, coroutine_number(state), function as u64])
        }
        Shown::ExternalPending => Numbers::said(10, &[1, 0]),
        Shown::ExternalResolved(v) => {
            let w = value_words(v);
            Numbers::said(10, &[1, 1, w.0, w.1])
        }
        Shown::ExternalFailed(e) => {
            let w = error_words(e);
            Numbers::said(10, &[1, 2, w.0, w.1])
        }
        Shown::GatherPending => Numbers::said(10, &[2, 0]),
        Shown::GatherAwaited { count, .. } => Numbers::said(10, &[2, 1, count as u64]),
        Shown::GatherCompleted { count, .. } => Numbers::said(10, &[2, 2, count as u64]),
        Shown::GatherFailed(e) => {
            let w = error_words(e);
            Numbers::said(10, &[2, 3, w.0, w.1])
        }
        Shown::Nothing => Numbers::said(10, &[]),
    }
}

#[tactic(auto, unfolding(machine::specs::Answers::coroutine_number))]
fn coroutine_number(state: CoroutineState) -> u64
    ensures { result ≡ coroutine_number state }
{
    state as u64
}

// The numbers of a read of an object.
#[tactic(auto, using(crate::proofs::NumbersLaws::same_shown, crate::proofs::NumbersLaws::same_refused))]
pub fn shown_numbers(reading: Result<Shown, Refusal>) -> Numbers
    ensures { (ps : List ℕ) → result ≡ numbers_as (show_answer ps reading) }
{
    match reading {
        Ok(x) => show(x),
        Err(refusal) => Numbers::refused(refusal),
    }
}

// An open place, or its value.
#[tactic(auto, using(crate::proofs::NumbersLaws::slot_none, crate::proofs::NumbersLaws::slot_some), unfolding(machine::specs::Machine::slot_value))]
fn slot(is_open: bool, result_of: Option<Value>) -> Numbers
    ensures { result ≡ slot_said (slot_value is_open result_of) }
{
    match result_of {
        Some(v) if !is_open => {
            let w = value_words(v);
            Numbers::said(10, &[1, w.0, w.1])
        }
        _ => Numbers::said(10, &[0]),
    }
}

// Is bit `i` set? Bits from 32 on are not.
#[tactic(auto, using(crate::proofs::NumbersLaws::bit_high))]
fn is_set(mask: u32, i: u16) -> bool
    ensures { result ≡ bit mask i }
{
    i < 32 && (mask >> i) % 2 != 0
}

// Place `i` of a gather that has `count` places from `first` on, or a refusal.
#[tactic(auto, using(crate::proofs::NumbersLaws::place_none, crate::proofs::NumbersLaws::place_some))]
fn place(places: &[u64], first: u16, count: u16, open_places: u32, i: u16) -> Numbers
    ensures { result ≡ place_said (places_from places.now first open_places 0 count) i }
{
    if count <= i {
        return Numbers::refused(Refusal::Unknown);
    }
    slot(is_set(open_places, i), result_at(places, first, i))
}

// Place `i` of what an object shows, or a refusal where it has no such place.
#[tactic(auto, using(crate::proofs::NumbersLaws::no_place), unfolding(crate::specs::Numbers::places_shown))]
fn shown_place(places: &[u64], x: Shown, i: u16) -> Numbers
    ensures { result ≡ place_said (places_shown (shown_of places.now x)) i }
{
    match x {
        Shown::GatherAwaited {
            first,
            count,
            open_places,
        } => place(places, first, count, open_places, i),
        Shown::GatherCompleted { first, count } => place(places, first, count, 0, i),
        _ => Numbers::refused(Refusal::Unknown),
    }
}

// The numbers of place `i` of what was read of an object.
#[tactic(auto, using(crate::proofs::NumbersLaws::same_refused), unfolding(crate::specs::Numbers::place_as))]
pub fn place_numbers(places: &[u64], reading: Result<Shown, Refusal>, i: u16) -> Numbers
    ensures { result ≡ place_as (show_answer places.now reading) i }
{
    match reading {
        Ok(x) => shown_place(places, x, i),
        Err(refusal) => Numbers::refused(refusal),
    }
}
