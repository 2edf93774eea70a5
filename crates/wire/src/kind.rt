// The kinds of frame: the one list of them that all else reads.
ghost use Rattle.std.specs.Prelude.{◌≡◌, Some, MatchResult, ◌≢◌};
ghost use Rattle.wire.specs.Kinds.{block_len, kind_number, kind_of, kind_or_error};
ghost use Rattle.wire.specs.declared.kind.Kind.{Kind as TheKind};

// The ciphers that a frame can be sealed with, each with the number of its kind.
#[derive(Clone, Copy, PartialEq, Eq, Debug)]
pub enum Suite {
    Aes128 = 1,
    Present80 = 2,
    Bench = 3,
}

impl Suite {
    // n, the bytes of a block.
    pub fn block_len(self) -> usize
        ensures { result ≡ block_len self }
    {
        match self {
            Suite::Aes128 => 16,
            Suite::Present80 | Suite::Bench => 8,
        }
    }
}

// An idle frame carries fill, a sealed one a record.
#[derive(Clone, Copy, PartialEq, Eq, Debug)]
pub enum Kind {
    Idle,
    Sealed(Suite),
}

// A number that no kind of frame has.
#[derive(Clone, Copy, PartialEq, Eq, Debug)]
pub struct UnknownKind {
    pub number: u8,
}

impl TryFrom<u8> for Kind {
    type Error = UnknownKind;

    ghost try_from_gives = { λ number r. r ≡ kind_or_error number };

    fn try_from(number: u8) -> Result<Kind, UnknownKind>
        ensures value { result ≡ kind_or_error number }
        ensures cases { MatchResult result (λ k. kind_number k ≡ number) (λ e. (e.number ≡ number) × ((k : TheKind) → kind_number k ≢ number)) }
    {
        match number {
            0 => Ok(Kind::Idle),
            1 => Ok(Kind::Sealed(Suite::Aes128)),
            2 => Ok(Kind::Sealed(Suite::Present80)),
            3 => Ok(Kind::Sealed(Suite::Bench)),
            _ => Err(UnknownKind { number }),
        }
    }
}

impl From<Kind> for u8 {
    ghost from_gives = { λ k number. number ≡ kind_number k };

    fn from(kind: Kind) -> u8
        ensures value { result ≡ kind_number kind }
        ensures listed { kind_of result ≡ Some kind }
    {
        match kind {
            Kind::Idle => 0,
            Kind::Sealed(suite) => suite as u8,
        }
    }
}
