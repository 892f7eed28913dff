// The line of an event's answer. A wait's calls are handed over with it.
ghost use Rattle.std.specs.Prelude.{◌+◌, ◌*◌, length};
ghost use Rattle.machine.specs.Events.{waits};
ghost use Rattle.machine.specs.Machine as machine;
ghost use Rattle.exec_switch.specs.Control.{how_of, control_with};
ghost use Rattle.drive_text.specs.Writing.{Puts};
ghost use Rattle.drive_lines.specs.Lines.{value_text, error_text, how_text, control_text, line};
ghost use Rattle.drive_lines.specs.Writes.{PutsAnswer, PutsLine};

use asyncio::{Error, Value};
use drive_text::Writer;
use exec_switch::answer::Answer;
use exec_switch::control::{Control, How};

// ---- parts of a line

#[tactic(auto, unfolding(crate::specs::Lines::value_text))]
pub fn put_value(out: &mut Writer, v: Value)
    ensures { Puts 27 out (value_text v) }
{
    match v {
        Value::Plain(n) => out.put_named(b" plain", n),
        Value::List(g) => out.put_named(b" list", g.word()),
    }
}

#[tactic(auto, unfolding(crate::specs::Lines::error_text))]
pub fn put_error(out: &mut Writer, e: Error)
    ensures { Puts 28 out (error_text e) }
{
    match e {
        Error::Host(n) => out.put_named(b" host", n as u64),
        Error::Script(n) => out.put_named(b" script", n as u64),
        Error::CoroutineReuse => out.put_text(b" coroutine-reuse"),
        Error::FutureReuse => out.put_text(b" future-reuse"),
        Error::GatherReuse => out.put_text(b" gather-reuse"),
        Error::NotFound => out.put_text(b" not-found"),
        Error::ModuleFile => out.put_text(b" module-file"),
    }
}

#[tactic(auto, unfolding(crate::specs::Lines::how_text))]
fn put_how(out: &mut Writer, how: How)
    ensures { Puts 48 out (how_text (how_of how)) }
{
    match how {
        How::Start {
            coroutine,
            function,
        } => {
            out.put_named(b" start", coroutine.word());
            out.put_field(function as u64);
        }
        How::Value(v) => {
            out.put_text(b" value");
            put_value(out, v);
        }
        How::Raised(e) => {
            out.put_text(b" raised");
            put_error(out, e);
        }
        How::Inline(c) => out.put_named(b" inline", c.word()),
    }
}

// A wait: how many calls, and the calls.
fn put_wait(out: &mut Writer, calls: &[u64])
    ensures { Puts (27 + 21 * length calls.now) out (control_text (waits calls.now)) }
{
    out.put_named(b" waits", calls.len() as u64);
    out.put_numbers(calls);
}

#[tactic(auto, unfolding(crate::specs::Lines::control_text))]
fn put_control(out: &mut Writer, control: Control, calls: &[u64])
    ensures { Puts (75 + 21 * length calls.now) out (control_text (control_with calls.now control)) }
{
    match control {
        Control::Runs { task, how } => {
            out.put_named(b" runs", task.word());
            put_how(out, how);
        }
        Control::Waits => put_wait(out, calls),
    }
}

// The word of an answer, and its fields.
#[tactic(auto, unfolding(crate::specs::Lines::answer_text, crate::specs::Lines::yes_no))]
fn put_answer(out: &mut Writer, answer: Answer, calls: &[u64])
    ensures { PutsAnswer out calls.now answer }
{
    match answer {
        Answer::Made(o) => out.put_named(b" made", o.word()),
        Answer::Called(n) => out.put_named(b" call", n.word()),
        Answer::Switched(control) => put_control(out, control, calls),
        Answer::Awaited { control, steps } => {
            put_control(out, control, calls);
            out.put_named(b" steps", steps as u64);
        }
        Answer::Done => out.put_text(b" done"),
        Answer::Cancelled(n) => out.put_named(b" done", n as u64),
        Answer::Stalled => out.put_text(b" stalled"),
        Answer::Finished(v) => {
            out.put_text(b" finished");
            put_value(out, v);
        }
        Answer::FinishedError(e) => {
            out.put_text(b" finished error");
            put_error(out, e);
        }
        Answer::Eager(true) => out.put_text(b" eager yes"),
        Answer::Eager(false) => out.put_text(b" eager no"),
        Answer::Refused(why) => out.put_named(b" refused", why.number() as u64),
    }
}

// ---- lines

// The line of record `number`: the answer of an event, or of the read `eager`. `calls` are those of a wait, as many words as the entry said; after any
// other answer they are not looked at.
pub fn write_line(out: &mut Writer, number: u64, answer: Answer, calls: &[u64])
    ensures { PutsLine out number calls.now answer }
{
    out.put_decimal(number);
    put_answer(out, answer, calls);
    out.put_byte(b'\n');
}

// The line of a refused record: the driver's own refusal, 11, too.
pub fn write_refused(out: &mut Writer, number: u64, n: u16)
    ensures { Puts 50 out (line number (machine.Answer.refused n)) }
{
    out.put_decimal(number);
    out.put_named(b" refused", n as u64);
    out.put_byte(b'\n');
}
