// Results of calls: apply_future_results.
ghost use Rattle.std.specs.Prelude.{◌≡◌, ◌<◌, ◌*◌, ◌/◌, length};
ghost use Rattle.machine.specs.Events.{apply_result, apply_future_results, wake_in_order};
ghost use Rattle.exec_futures.specs.Results.{kind_of, result_of, result_at, results_in};
ghost use Rattle.exec_deliver.specs.Delivers.{Wakes};
ghost use Rattle.contract.specs.Contract.{Changes};

use asyncio::words::{to_u32, to_value};
use asyncio::{Error, Objects, Places, RESULT_BYTES, TaskId, Tasks};
use exec_deliver::future::{fail_future, resolve_future};
use queue::ReadyQueue;

// How the host answers a call: with a value, with an error of its own, not yet, or that there is no such function, or no such module.
#[derive(Clone, Copy, PartialEq, Eq, Debug)]
pub enum ResultKind {
    Return,
    Error,
    StillFuture,
    NotFound,
    ModuleFile,
}

impl ResultKind {
    // The kind that a byte names, if there is one.
    pub fn from_byte(n: u8) -> Option<ResultKind>
        ensures { result ≡ kind_of n }
    {
        match n {
            0 => Some(ResultKind::Return),
            1 => Some(ResultKind::Error),
            2 => Some(ResultKind::StillFuture),
            3 => Some(ResultKind::NotFound),
            4 => Some(ResultKind::ModuleFile),
            _ => None,
        }
    }
}

// One result of a batch, as it was sent: the byte of its kind, which may name none (refusal 10), and a value's tag and number.
#[derive(Clone, Copy, PartialEq, Eq, Debug)]
pub struct FutureResult {
    pub call: u32,
    pub kind: u8,
    pub tag: u8,
    pub number: u64,
}

impl FutureResult {
    // The `i`-th result of a batch.
    pub fn at(results: &[u8], i: usize) -> FutureResult
        requires { i < length results.now / 14 }
        ensures { result_of result ≡ result_at results.now (i * 14) }
    {
        let at = i * RESULT_BYTES;
        FutureResult {
            call: endian::u32_at(results, at) as u32,
            kind: results[at + 4],
            tag: results[at + 5],
            number: endian::u64_at(results, at + 6),
        }
    }
}

// One result applied: the task that it woke. A byte that names no kind, which an event refuses before, is read as the last kind.
fn apply_result(
    tasks: &mut Tasks,
    objects: &mut Objects,
    places: &mut Places,
    r: FutureResult,
) -> Option<TaskId>
    ensures { Wakes tasks objects places
        (λ s. apply_result s (result_of r)) result }
{
    let error = match ResultKind::from_byte(r.kind).unwrap_or(ResultKind::ModuleFile) {
        ResultKind::Return => {
            return resolve_future(
                tasks,
                objects,
                places,
                r.call,
                to_value(r.tag as u64, r.number),
            );
        }
        ResultKind::StillFuture => return None,
        ResultKind::Error => Error::Host(to_u32(r.number)),
        ResultKind::NotFound => Error::NotFound,
        ResultKind::ModuleFile => Error::ModuleFile,
    };
    fail_future(tasks, objects, r.call, error)
}

// One result after the other; those whom they woke go to the queue's back, behind those who stood there, lowest number first.
pub fn apply_future_results(
    tasks: &mut Tasks,
    objects: &mut Objects,
    places: &mut Places,
    queue: &mut ReadyQueue,
    results: &[u8],
)
    ensures { Changes tasks objects places queue.old queue.new
        (λ s. wake_in_order s (apply_future_results s (results_in results.now))) }
{
    let stood = queue.len;
    for i in 0..results.len() / RESULT_BYTES {
        let result = FutureResult::at(results, i);
        if let Some(t) = apply_result(tasks, objects, places, result) {
            queue.push_in_order(t, stood);
        }
    }
}
