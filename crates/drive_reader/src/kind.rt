// The kinds of records.
ghost use Rattle.drive_reader.specs.Kinds.{kind_number, Decodes};
ghost use Rattle.drive_reader.specs.Format.{size};

use crate::NoRecord;

// The kinds, by their byte, 1 to 13.
#[derive(Clone, Copy, PartialEq, Eq, Debug)]
pub enum Kind {
    Coroutine,
    Call,
    Pending,
    Settled,
    Gather,
    Await,
    Complete,
    Fail,
    Results,
    Resume,
    Cancel,
    Show,
    Eager,
}

impl TryFrom<u8> for Kind {
    type Error = NoRecord;

    ghost try_from_gives = { Decodes };

    fn try_from(byte: u8) -> Result<Self, NoRecord> {
        match byte {
            1 => Ok(Kind::Coroutine),
            2 => Ok(Kind::Call),
            3 => Ok(Kind::Pending),
            4 => Ok(Kind::Settled),
            5 => Ok(Kind::Gather),
            6 => Ok(Kind::Await),
            7 => Ok(Kind::Complete),
            8 => Ok(Kind::Fail),
            9 => Ok(Kind::Results),
            10 => Ok(Kind::Resume),
            11 => Ok(Kind::Cancel),
            12 => Ok(Kind::Show),
            13 => Ok(Kind::Eager),
            _ => Err(NoRecord),
        }
    }
}

impl Kind {
    ghost use Rattle.std.specs.Prelude.{◌≡◌};

    // How many bytes a record of the kind has; `count` is the byte behind the kind.
    #[tactic(auto, unfolding(crate::specs::Format::size))]
    pub fn size(self, count: u8) -> usize
        ensures { result ≡ size (kind_number self) count }
    {
        match self {
            Kind::Coroutine => 7,
            Kind::Call => 3,
            Kind::Pending => 17,
            Kind::Settled => 12,
            Kind::Gather => 4 + count as usize * 2,
            Kind::Await => 5,
            Kind::Complete => 12,
            Kind::Fail => 7,
            Kind::Results => 4 + count as usize * 14,
            Kind::Resume => 3,
            Kind::Cancel => 5,
            Kind::Show => 5,
            Kind::Eager => 3,
        }
    }
}
