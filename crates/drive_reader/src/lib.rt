// One record of document 01's driver, read from lent bytes. Whoever reads records calls `parse_record`.
#![tactic(auto)]

pub mod items; // the numbers of a gather
mod kind; // the kinds of records
mod reader; // lent bytes, and a place in them

ghost use Rattle.drive_reader.specs.RecordNumbers.{Parses};

use asyncio::Value;
pub use reader::Reader;

// The records, kinds 1 to 13. Of a gather's items and of results it is told where they begin in the bytes and how many there are.
#[derive(Clone, Copy, PartialEq, Eq, Debug)]
pub enum Record {
    Coroutine(u32),
    Call,
    Pending { call: u32, stored: Option<Value> },
    Settled(Value),
    Gather { first: usize, count: u8 },
    Await(u16),
    Complete(Value),
    Fail(u32),
    Results { first: usize, count: u8 },
    Resume,
    Cancel(u16),
    Show(u16),
    Eager,
}

// A record, and the place behind it.
#[derive(Clone, Copy, PartialEq, Eq, Debug)]
pub struct Found {
    pub what: Record,
    pub next: usize,
}

// What stands at a place is no record of document 01 (its refusal 11).
#[derive(Clone, Copy, PartialEq, Eq, Debug)]
pub struct NoRecord;

// The record at a place of lent bytes; none where no byte is left.
pub fn parse_record(src: &[u8], at: usize) -> Result<Option<Found>, NoRecord>
    ensures { Parses src.now at result }
{
    Reader::new(src, at).record()
}
