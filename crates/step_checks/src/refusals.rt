// The tests of the table of refusals.
ghost use Rattle.std.specs.Prelude.{◌≡◌, not, List, ℕ, ◌≤◌, leb};
ghost use Rattle.asyncio.specs.Limits.{object_limit, call_limit};
ghost use Rattle.rows.specs.Tables.{header_at};
ghost use Rattle.queue.specs.declared.ReadyQueue.{ReadyQueue};
ghost use Rattle.machine.specs.Store.{LogEntry};
ghost use Rattle.machine.specs.Scheduler.{live};
ghost use Rattle.step_checks.specs.Checked.{turn_of, wait_of};
ghost use Rattle.machine.specs.Machine.{any_of, result_unknown, bad_result};
ghost use Rattle.exec_futures.specs.Results.{result_of, results_in};
ghost use Rattle.contract.specs.Contract.{kept, before, ReadsObjects};

use asyncio::{CALLS, HeapId, Moment, OBJECTS, Objects, RESULT_BYTES, TaskId, Tasks, U32_LIMIT};
use exec_futures::results::{FutureResult, ResultKind};
use exec_switch::answer::Refusal;
use rows::parts::{kind_at, state_at};
use rows::tables::load_header;

// The running task, or why an event of running is refused.
pub fn running(objects: &Objects) -> Result<TaskId, Refusal>
    ensures { result ≡ turn_of (header_at objects.now).moment }
{
    match load_header(objects).moment {
        Moment::Running(t) => Ok(t),
        Moment::Waiting => Err(Refusal::WrongMoment),
        Moment::Ended => Err(Refusal::SessionEnded),
    }
}

// Why an event of waiting is refused, if it is.
pub fn waiting(objects: &Objects) -> Result<(), Refusal>
    ensures { result ≡ wait_of (header_at objects.now).moment }
{
    match load_header(objects).moment {
        Moment::Running(_) => Err(Refusal::WrongMoment),
        Moment::Waiting => Ok(()),
        Moment::Ended => Err(Refusal::SessionEnded),
    }
}

// Are all objects made that there are numbers for?
pub fn is_full(objects: &Objects) -> bool
    ensures { result ≡ leb object_limit (header_at objects.now).made }
{
    OBJECTS <= load_header(objects).made as usize
}

// Are all call numbers handed out?
pub fn no_number(objects: &Objects) -> bool
    ensures { result ≡ leb call_limit (header_at objects.now).calls }
{
    CALLS <= load_header(objects).calls
}

// Is one of the items not made?
pub fn any_unmade(made: u16, items: &[u16]) -> bool
    ensures { result ≡ any_of (leb made) items.now }
{
    items.iter().any(|item| made <= *item)
}

// Is task `t` not live? A number that no task has is not, however large it is.
pub fn not_live(tasks: &Tasks, objects: &Objects, t: u16) -> bool
    ensures { (ps : List ℕ) (q : ReadyQueue) (l : List LogEntry)
        → result ≡ not (live (before (kept tasks.now) (kept objects.now) (kept ps) q l) t) }
{
    load_header(objects).next <= t || !state_at(tasks, TaskId::new(t)).is_live()
}

// Is it a returned list of a gather that is not completed?
fn result_unknown(objects: &Objects, made: u16, r: FutureResult) -> bool
    requires { (made ≤ object_limit) × ((header_at objects.now).made ≡ made) }
    ensures { ReadsObjects objects.now
        (λ s. result_unknown s (result_of r)) result }
{
    if r.kind != ResultKind::Return as u8 || r.tag != 1 {
        return false;
    }
    made as u64 <= r.number || !kind_at(objects, HeapId::new(r.number as u16)).is_completed()
}

// Is one of the results such a list?
pub fn any_unknown(objects: &Objects, results: &[u8]) -> bool
    ensures { ReadsObjects objects.now
        (λ s. any_of (result_unknown s) (results_in results.now)) result }
{
    let header = load_header(objects);
    for i in 0..results.len() / RESULT_BYTES {
        if result_unknown(objects, header.made, FutureResult::at(results, i)) {
            return true;
        }
    }
    false
}

// Has it no kind, a tag above 1, or an error number of 2^32 or more?
fn bad_result(r: FutureResult) -> bool
    ensures { result ≡ bad_result (result_of r) }
{
    if ResultKind::from_byte(r.kind).is_none() || 1 < r.tag {
        return true;
    }
    r.kind == ResultKind::Error as u8 && U32_LIMIT <= r.number
}

// Is one of the results such a one?
pub fn any_bad(results: &[u8]) -> bool
    ensures { result ≡ any_of bad_result (results_in results.now) }
{
    for i in 0..results.len() / RESULT_BYTES {
        if bad_result(FutureResult::at(results, i)) {
            return true;
        }
    }
    false
}
