// The line of a read of an object.
ghost use Rattle.std.specs.Prelude.{false, not, ◌++◌, ◌+◌, ◌*◌, ◌%◌, eqb, length};
ghost use Rattle.rows.specs.Tables.{place_at};
ghost use Rattle.machine.specs.Machine as machine;
ghost use Rattle.machine.specs.Machine.{slot_value};
ghost use Rattle.step_read.specs.Reads.{places_from, shown_of};
ghost use Rattle.drive_text.specs.Writing.{Puts};
ghost use Rattle.drive_text.specs.Text.{word};
ghost use Rattle.drive_lines.specs.Lines.{error_text, place_text, places_text, shown_text, line};
ghost use Rattle.drive_shows.specs.Shows.{shown_count, PutsGather, PutsReading};

use asyncio::{CoroutineState, Error, Value};
use drive_lines::answers::{put_error, put_value, write_refused};
use drive_text::Writer;
use exec_switch::answer::Refusal;
use rows::total::result_at;
use step_read::Shown;

// A coroutine: its state and its function.
#[tactic(auto, unfolding(drive_lines::specs::Lines::state_text, drive_lines::specs::Lines::shown_text))]
fn put_coroutine(out: &mut Writer, state: CoroutineState, function: u32)
    ensures { Puts 41 out (shown_text (machine.Shown.a_coroutine state function)) }
{
    match state {
        CoroutineState::New => out.put_named(b" coroutine new", function as u64),
        CoroutineState::Running => out.put_named(b" coroutine running", function as u64),
        CoroutineState::Completed => out.put_named(b" coroutine completed", function as u64),
    }
}

// A place that is not open: its result.
#[tactic(auto, unfolding(machine::specs::Machine::slot_value, drive_lines::specs::Lines::place_text))]
fn put_result(out: &mut Writer, result_value: Option<Value>)
    ensures { Puts 27 out (place_text (slot_value false result_value)) }
{
    match result_value {
        None => out.put_text(b" open"),
        Some(v) => put_value(out, v),
    }
}

// Place `i` of a gather; `rest` is its open word without the bits below `i`.
fn put_place(out: &mut Writer, places: &[u64], first: u16, i: u16, rest: u32)
    ensures { Puts 27 out (place_text (slot_value (not (eqb (rest % 2) 0)) (place_at places.now (first + i)).result)) }
{
    if rest % 2 == 0 {
        return put_result(out, result_at(places, first, i));
    }
    out.put_text(b" open");
}

// The places of a gather; bit i of `mask` says that place i is open.
fn put_places(out: &mut Writer, places: &[u64], first: u16, count: u16, mask: u32)
    ensures { Puts (27 * count) out (places_text (places_from places.now first mask 0 count)) }
{
    let mut rest = mask;
    for i in 0..count {
        put_place(out, places, first, i, rest);
        rest /= 2;
    }
}

// A gather with its places: sort and state, place count, each place.
fn put_gather(out: &mut Writer, state: &[u8], places: &[u64], first: u16, count: u16, mask: u32)
    ensures { PutsGather out state.now places.now first count mask }
{
    out.put_text(state);
    out.put_field(count as u64);
    put_places(out, places, first, count, mask);
}

// What failed, and its error.
fn put_failure(out: &mut Writer, sort: &[u8], e: Error)
    ensures { Puts (length sort.now + 35) out (sort.now ++ (word "failed" ++ error_text e)) }
{
    out.put_text(sort);
    out.put_text(b" failed");
    put_error(out, e);
}

// Sort, state and what document 01 lists.
#[tactic(auto, unfolding(drive_lines::specs::Lines::shown_text, crate::specs::Shows::shown_count))]
fn put_shown(out: &mut Writer, shown: Shown, places: &[u64])
    ensures { Puts (48 + 27 * shown_count shown) out (shown_text (shown_of places.now shown)) }
{
    match shown {
        Shown::Coroutine { state, function } => put_coroutine(out, state, function),
        Shown::ExternalPending => out.put_text(b" external pending"),
        Shown::ExternalResolved(v) => {
            out.put_text(b" external resolved");
            put_value(out, v);
        }
        Shown::ExternalFailed(e) => put_failure(out, b" external", e),
        Shown::GatherPending => out.put_text(b" gather pending"),
        Shown::GatherAwaited {
            first,
            count,
            open_places,
        } => put_gather(out, b" gather awaited", places, first, count, open_places),
        Shown::GatherCompleted { first, count } => put_gather(
            out,
            b" gather completed",
            places,
            first,
            count,
            0,
        ),
        Shown::GatherFailed(e) => put_failure(out, b" gather", e),
        Shown::Nothing => out.put_text(b" nothing"),
    }
}

fn write_shown(out: &mut Writer, number: u64, shown: Shown, places: &[u64])
    ensures { Puts (75 + 27 * shown_count shown) out (line number (machine.Answer.shows (shown_of places.now shown))) }
{
    out.put_decimal(number);
    out.put_text(b" shows");
    put_shown(out, shown, places);
    out.put_byte(b'\n');
}

// The line of record `number`, a read of an object. `places` is the store's.
#[tactic(auto, unfolding(crate::specs::Shows::reading_count))]
pub fn write_reading(out: &mut Writer, number: u64, reading: Result<Shown, Refusal>, places: &[u64])
    ensures { PutsReading out number places.now reading }
{
    match reading {
        Ok(shown) => write_shown(out, number, shown, places),
        Err(why) => write_refused(out, number, why.number()),
    }
}
