// The walk of a pass file, frame by frame from its end.
ghost use Rattle.std.specs.Prelude.{◌≡◌, ℕ, ◌+◌, ◌-◌, ◌≤◌, List, [], length, IfOk, MatchResult, ◌≢◌};
ghost use Rattle.wire.specs.Faults.{cause_number};
ghost use Rattle.pass.specs.Layout.{Behind, Refusal};
ghost use Rattle.pass.specs.Reading.{last_of};
ghost use Rattle.pass.specs.Walking.{Standing, IsFew, Handed as TheHanded, start, handed, answer, next, Steps};
ghost use Rattle.pass.specs.View.{told};
ghost use Rattle.pass.specs.Runs.{collected, Walks, Reaches, Whole};

use crate::frame::{Frame, Last, last_frame};
use crate::trailer::TRAILER_LEN;
use std::marker::Model;
use wire::fault::{FrameFault, PassFault, at};

// Where a walk stands: the bytes that are left, and the number of the frame that ends them.
#[derive(Drop)]
pub struct Walk<'a> {
    rest: &'a [u8],
    number: usize,
    // The sum never grows, so the number cannot overflow.
    ghost few: { IsFew (record { rest = rest.now; number = number }) },
}

impl<'a> Model for Walk<'a> {
    ghost Value = { Standing };

    ghost view = { λ w. record { point = record { rest = w.rest.now; number = w.number }; few = w.few } };
}

impl<'a> Walk<'a> {
    pub fn new(file: &'a [u8]) -> Walk<'a>
        ensures value { result.point ≡ start file.now }
        ensures run { Walks file.now [] result.point }
        ensures reaches { Reaches file.now }
        ensures few { IsFew result.point }
    {
        Walk {
            rest: file,
            number: 0,
        }
    }

    // The bytes not walked yet.
    pub fn left(&self) -> usize
        ensures value { result ≡ length self.now.point.rest }
        ensures few { IsFew self.now.point }
    {
        self.rest.len()
    }

    // The frames handed out so far.
    pub fn count(&self) -> usize
        ensures value { result ≡ self.now.point.number }
        ensures few { IsFew self.now.point }
    {
        self.number
    }

    // The frame that ends the bytes that are left, or none if none are left. A refusal leaves the walk as it is.
    pub fn next_frame(&mut self) -> Result<Option<Frame<'a>>, PassFault>
        ensures value { told result ≡ answer self.old.point }
        ensures after { self.new.point ≡ next self.old.point }
        ensures step { Steps self.old.point (told result) self.new.point }
        ensures run { (file : List ℕ) (fs : List TheHanded) → Walks file fs self.old.point → Walks file (collected fs (told result)) self.new.point }
        ensures rule { (file : List ℕ) (fs : List TheHanded) → Walks file fs self.old.point → Whole file fs (told result) }
        ensures stays { ((f : TheHanded) → told result ≢ handed f) → answer self.new.point ≡ told result }
        ensures few { IsFew self.new.point }
    {
        if self.rest.is_empty() {
            return Ok(None);
        }
        let Last { rest, content } = at(located(self.rest), self.number)?;
        let place = rest.len();
        let frame = Frame::new(content, self.number, place, self.rest.len() - place);
        *self = Walk {
            rest,
            number: self.number + 1,
        };
        Ok(Some(frame))
    }
}

// The place of the trailer that ends `bytes`: 0 if they are too few for one.
fn trailer_place(bytes: &[u8]) -> usize
    ensures { result ≡ length bytes.now - 8 }
{
    bytes.len().saturating_sub(TRAILER_LEN)
}

// The frame that ends `bytes`, or what is wrong with it and where its trailer is.
fn located(bytes: &[u8]) -> Result<Last<'_>, FrameFault>
    ensures value { result ≡ last_of bytes.now }
    ensures cases { MatchResult result (λ l. Behind bytes.now l.rest l.parts) (λ e. Refusal bytes.now (cause_number e.cause)) }
    ensures shorter { IfOk result (λ l. length l.rest + 8 ≤ length bytes.now) }
{
    Ok(at(last_frame(bytes), trailer_place(bytes))?)
}
