// The answers of document 01. The calls of a wait are those pending in the store.
ghost use Rattle.std.specs.Prelude.{◌≡◌};
ghost use Rattle.exec_switch.specs.Refusal.{refusal_number};

use crate::control::Control;
use asyncio::{CallId, Error, HeapId, Value};
use queue::ReadyQueue;

// Why an event or a read is refused, by the numbers of document 01's table of what a caller gets; the driver's own, 11, is not of the library.
#[derive(Clone, Copy, PartialEq, Eq, Debug)]
pub enum Refusal {
    // a slice of the store has the wrong length, or the list of calls has under 256 words
    WrongLength = 1,
    // the store is not sound
    NotSound,
    // the session has ended
    SessionEnded,
    // an event of running while the host has control, or one of the host while a task runs
    WrongMoment,
    // an object not made, a task not live, a call number not handed out, a list of a gather not completed
    Unknown,
    // the call is pending already
    PendingAlready,
    // a 257th object, over 32 items, over 512 places in all
    NoRoom,
    // all call numbers are handed out
    NoCallNumber,
    // main is cancelled
    MainCancelled,
    // over 64 results, or a result of a wrong kind, tag or error number
    BadResult,
}

impl Refusal {
    // Its number in the table.
    pub fn number(self) -> u16
        ensures { result ≡ refusal_number self }
    {
        self as u16
    }
}

#[derive(Clone, Copy, PartialEq, Eq, Debug)]
pub enum Answer {
    Made(HeapId),
    Called(CallId),
    Switched(Control),
    Awaited { control: Control, steps: u16 },
    Done,
    // a task was cancelled: so many of the removed tasks stood in the ready queue
    Cancelled(u16),
    Stalled,
    Finished(Value),
    FinishedError(Error),
    Eager(bool),
    Refused(Refusal),
}

// The queue after an event, and its answer.
#[derive(Drop)]
pub struct Stepped {
    pub queue: ReadyQueue,
    pub answer: Answer,
}
