// Every fault with its number. A fault is carried whole inside the next one up, which adds where it was found.
ghost use Rattle.std.specs.Prelude.{◌≡◌};
ghost use Rattle.wire.specs.Faults.{record_number, cause_number, pass_number, list_number, placed};
ghost use Rattle.wire.specs.declared.fault.Cause.TheVariants.{Record as InRecord, UnknownKind as NoSuchKind};
ghost use Rattle.wire.specs.declared.fault.ListFault.TheVariants.{Pass as InPass};

use crate::kind::UnknownKind;

// What is wrong with a record, each with its number.
#[derive(Clone, Copy, PartialEq, Eq, Debug)]
pub enum RecordFault {
    HeaderTooLong = 1,
    BufferTooShort = 2,
    MessageTooLong = 3,
    KeyLength = 4,
    TagLength = 5,
    TagWrong = 6,
}

impl RecordFault {
    pub fn number(self) -> u8
        ensures { result ≡ record_number self }
    {
        self as u8
    }
}

// What is wrong with a frame, or with the record in it.
#[derive(Clone, Copy, PartialEq, Eq, Debug)]
pub enum Cause {
    Record(RecordFault),
    // fewer bytes than a trailer has
    Short,
    NoMark,
    UnknownKind,
    // a length in the trailer that is past its limit, or that the kind does not take
    BadLength,
    // parts longer than the bytes before the trailer
    Overrun,
    OtherCipher,
    NonceTooLong,
}

impl Cause {
    pub fn number(self) -> u8
        ensures { result ≡ cause_number self }
    {
        match self {
            Cause::Record(fault) => fault.number(),
            Cause::Short => 7,
            Cause::NoMark => 8,
            Cause::UnknownKind => 9,
            Cause::BadLength => 10,
            Cause::Overrun => 11,
            Cause::OtherCipher => 12,
            Cause::NonceTooLong => 13,
        }
    }
}

impl From<RecordFault> for Cause {
    ghost from_gives = { λ e r. r ≡ InRecord e };

    fn from(found: RecordFault) -> Cause {
        Cause::Record(found)
    }
}

impl From<UnknownKind> for Cause {
    ghost from_gives = { λ _ r. r ≡ NoSuchKind };

    fn from(_unknown: UnknownKind) -> Self {
        Self::UnknownKind
    }
}

// The place is that of the frame's trailer, from the file's first byte, or 0 where there is no whole trailer.
#[derive(Clone, Copy, PartialEq, Eq, Debug)]
pub struct FrameFault {
    pub cause: Cause,
    pub place: usize,
}

impl From<(Cause, usize)> for FrameFault {
    ghost from_gives = { λ e r. r ≡ record { cause = e.0; place = e.1 } };

    fn from(found: (Cause, usize)) -> FrameFault {
        let (cause, place) = found;
        FrameFault { cause, place }
    }
}

// The frame is identified by its number, from 0 at the file's end.
#[derive(Clone, Copy, PartialEq, Eq, Debug)]
pub struct PassFault {
    pub fault: FrameFault,
    pub frame: usize,
}

impl PassFault {
    pub fn number(self) -> u8
        ensures { result ≡ pass_number self }
    {
        self.fault.cause.number()
    }
}

impl From<(FrameFault, usize)> for PassFault {
    ghost from_gives = { λ e r. r ≡ record { fault = e.0; frame = e.1 } };

    fn from(found: (FrameFault, usize)) -> PassFault {
        let (fault, frame) = found;
        PassFault { fault, frame }
    }
}

// What ends a listing before the file's start.
#[derive(Clone, Copy, PartialEq, Eq, Debug)]
pub enum ListFault {
    Pass(PassFault),
    InputTooLong,
}

impl ListFault {
    pub fn number(self) -> u8
        ensures { result ≡ list_number self }
    {
        match self {
            ListFault::Pass(fault) => fault.number(),
            ListFault::InputTooLong => 14,
        }
    }
}

impl From<PassFault> for ListFault {
    ghost from_gives = { λ e r. r ≡ InPass e };

    fn from(pass: PassFault) -> ListFault {
        ListFault::Pass(pass)
    }
}

// Pairs an error with the place, or the frame's number, that the next fault up adds to it; `?` then joins the two.
pub fn at<T, E>(res: Result<T, E>, number: usize) -> Result<T, (E, usize)>
    ensures { result ≡ placed res number }
{
    res.map_err(|error| (error, number))
}
