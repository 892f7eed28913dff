// The record at a place of lent bytes: the mark, the kind, whether all bytes are there, and what they say.
ghost use Rattle.std.specs.Prelude.{◌≡◌};
ghost use Rattle.drive_reader.specs.Format.{list_value};

use crate::kind::Kind;
use crate::{Found, NoRecord, Record};
use asyncio::{HeapId, Value};

// The mark hex C3 59, as a number of two bytes.
const MARK: u64 = 0x59C3;

// The list of a gather's number of 8 bytes. No gather has the number 65,535, so that it stands for all that do not fit.
fn list_value(n: u64) -> Value
    ensures { result ≡ list_value n }
{
    Value::List(HeapId::new(n.min(65535) as u16))
}

// Lent bytes, and the place of the next one.
#[derive(Clone, Copy)]
pub struct Reader<'a> {
    pub src: &'a [u8],
    pub at: usize,
}

impl<'a> Reader<'a> {
    ghost use Rattle.std.specs.Prelude.{◌≡◌, ◌≤◌, ◌<◌, ◌+◌, ◌-◌, length};
    ghost use Rattle.endian.specs.Endian.{le1};
    ghost use Rattle.drive_reader.specs.Format.{list_value, size, value_at, pending_at, contents, parse};
    ghost use Rattle.drive_reader.specs.Kinds.{kind_number};

    // A reader of lent bytes, from a place on.
    pub fn new(src: &'a [u8], at: usize) -> Reader<'a>
        ensures { (result.src ≡ src.entry) × (result.at ≡ at) }
    {
        Reader { src, at }
    }

    // How many bytes are left.
    fn left(self) -> usize
        ensures { result ≡ length self.entry.src.now - self.entry.at }
    {
        self.src.len().saturating_sub(self.at)
    }

    // The byte `k` places behind the next one; 0 past the end.
    pub(crate) fn byte(self, k: usize) -> u8
        ensures { result ≡ le1 self.entry.src.now (self.entry.at + k) }
    {
        if k < self.left() {
            self.src[self.at + k]
        } else {
            0
        }
    }

    // The value `k` places behind the next byte: a tag, and 8 bytes. None if the tag is above 1.
    #[tactic(auto, unfolding(crate::specs::Format::value_at))]
    fn value(self, k: usize) -> Option<Value>
        requires { k + 9 ≤ length self.src.now - self.at }
        ensures { result ≡ value_at self.entry.src.now (self.entry.at + k) }
    {
        let number = endian::u64_at(self.src, self.at + k + 1);
        match self.src[self.at + k] {
            0 => Some(Value::Plain(number)),
            1 => Some(list_value(number)),
            _ => None,
        }
    }

    // A pending external: its call, the flag, and at flag 1 the stored value.
    #[tactic(auto, unfolding(crate::specs::Format::pending_at))]
    fn pending(self) -> Option<Record>
        requires { 17 ≤ length self.src.now - self.at }
        ensures { result ≡ pending_at self.entry.src.now self.entry.at }
    {
        let call = endian::u32_at(self.src, self.at + 3) as u32;
        let stored = match self.src[self.at + 7] {
            0 => None,
            1 => Some(self.value(8)?),
            _ => return None,
        };
        Some(Record::Pending { call, stored })
    }

    // What a record of a kind says, all its bytes being there.
    #[tactic(auto, unfolding(crate::specs::Format::size, crate::specs::Format::contents))]
    fn contents(self, kind: Kind) -> Option<Record>
        requires { size (kind_number kind) (le1 self.src.now (self.at + 3)) ≤ length self.src.now - self.at }
        ensures { result ≡ contents self.entry.src.now self.entry.at (kind_number kind) }
    {
        Some(match kind {
            Kind::Coroutine => Record::Coroutine(endian::u32_at(self.src, self.at + 3) as u32),
            Kind::Call => Record::Call,
            Kind::Pending => self.pending()?,
            Kind::Settled => Record::Settled(self.value(3)?),
            Kind::Gather => Record::Gather {
                first: self.at + 4,
                count: self.byte(3),
            },
            Kind::Await => Record::Await(endian::u16_at(self.src, self.at + 3) as u16),
            Kind::Complete => Record::Complete(self.value(3)?),
            Kind::Fail => Record::Fail(endian::u32_at(self.src, self.at + 3) as u32),
            Kind::Results => Record::Results {
                first: self.at + 4,
                count: self.byte(3),
            },
            Kind::Resume => Record::Resume,
            Kind::Cancel => Record::Cancel(endian::u16_at(self.src, self.at + 3) as u16),
            Kind::Show => Record::Show(endian::u16_at(self.src, self.at + 3) as u16),
            Kind::Eager => Record::Eager,
        })
    }

    // The record, and the place behind it; none where no byte is left. What is left is compared with the size: a sum of place and size
    // could be too large.
    pub fn record(self) -> Result<Option<Found>, NoRecord>
        ensures { result ≡ parse self.entry.src.now self.entry.at }
    {
        let left = self.left();
        if left == 0 {
            return Ok(None);
        }
        if left < 3 || endian::u16_at(self.src, self.at) != MARK {
            return Err(NoRecord);
        }
        let kind = Kind::try_from(self.src[self.at + 2])?;
        let size = kind.size(self.byte(3));
        if size > left {
            return Err(NoRecord);
        }
        let Some(what) = self.contents(kind) else {
            return Err(NoRecord);
        };
        let next = self.at + size;
        Ok(Some(Found { what, next }))
    }
}
