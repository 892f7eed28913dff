// A whole session of the driver on lent memory: it begins, and takes its records one after the other, each with its line.
#![tactic(auto)]

ghost use Rattle.std.specs.Prelude.{◌≡◌, ◌≤◌};
ghost use Rattle.drive_session.specs.Fold.{stop_refusal};
ghost use Rattle.drive_session.specs.Session.{ended_at, Begun, DrivesRecords, DrivesSession};

use drive_answer::answered::Driven;
use queue::ReadyQueue;
use step_checks::lent::lengths_right;

// The queue; what ended the session, as document 01's number (0: no byte is left; 11: what stands at `next` is no record; 1: a length is wrong, and nothing
// was done); how many records were answered; the place of the next one; and where the output stands.
#[derive(Drop)]
pub struct DrivenSession {
    pub queue: ReadyQueue,
    pub refusal: u16,
    pub records: u64,
    pub next: usize,
    pub at: usize,
}

// What ends the records at a place of so many bytes: the input's end, or 11.
fn stop_refusal(bytes: usize, next: usize) -> u16
    ensures { result ≡ stop_refusal bytes next }
{
    if next < bytes { 11 } else { 0 }
}

// What the session returns where its records end, before the record `number`.
fn ended(driven: Driven, bytes: usize, number: u64) -> DrivenSession
    requires { 1 ≤ number }
    ensures { result ≡ ended_at driven bytes number }
{
    let queue = driven.queue;
    DrivenSession {
        queue,
        refusal: stop_refusal(bytes, driven.next),
        records: number - 1,
        next: driven.next,
        at: driven.at,
    }
}

// The records of a session that has just begun. There are no more of them than bytes, so that their number does not wrap.
fn drive_records(
    tasks: &mut [u64],
    objects: &mut [u64],
    places: &mut [u64],
    calls: &mut [u64],
    begun: ReadyQueue,
    src: &[u8],
    out: &mut [u8],
) -> DrivenSession
    requires { Begun tasks.old objects.old places.old calls.old begun }
    ensures { DrivesRecords tasks objects places calls src.now out result }
{
    let mut queue = begun;
    let mut from: usize = 0;
    let mut at: usize = 0;
    let mut number: u64 = 1;
    loop {
        let driven = drive_record::drive_record(
            tasks, objects, places, calls, queue, src, from, out, at, number,
        );
        if !driven.going {
            return ended(driven, src.len(), number);
        }
        queue = driven.queue;
        from = driven.next;
        at = driven.at;
        number += 1;
    }
}

// A fresh session, whatever the slices held, and the records of `src` until no byte is left or one is refused with 11. Their lines are written from the front
// of `out` on. Refused with 1 where a slice of the store has a wrong length or the list under 256 words; then nothing is changed.
pub fn drive_session(
    tasks: &mut [u64],
    objects: &mut [u64],
    places: &mut [u64],
    calls: &mut [u64],
    src: &[u8],
    out: &mut [u8],
) -> DrivenSession
    ensures { DrivesSession tasks objects places calls src.now out result }
{
    if lengths_right(tasks, objects, places, calls) {
        let begun = session_begin::begin(tasks, objects, places, ReadyQueue::new());
        return drive_records(tasks, objects, places, calls, begun.queue, src, out);
    }
    DrivenSession {
        queue: ReadyQueue::new(),
        refusal: 1,
        records: 0,
        next: 0,
        at: 0,
    }
}
