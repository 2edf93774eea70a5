// A frame: parts of the pass file, with the frame's number and place.
ghost use Rattle.std.specs.Prelude.{◌≡◌, true, length};
ghost use Rattle.pass.specs.Layout.{span, within_limits};
ghost use Rattle.pass.specs.Reading.{trailer_of, parts_at, Cut, cut_of, checked};
ghost use Rattle.pass.specs.View.{parts_of};

use crate::trailer::{TRAILER_LEN, Trailer};
use std::marker::Model;
use wire::fault::Cause;
use wire::kind::{Kind, Suite};

// What a frame carries, each a part of the pass file.
#[derive(Clone, Copy, PartialEq, Eq, Debug)]
pub enum Content<'a> {
    Idle {
        fill: &'a [u8],
    },
    Sealed {
        suite: Suite,
        nonce: &'a [u8],
        header: &'a [u8],
        body: &'a [u8],
        tag: &'a [u8],
    },
}

impl<'a> Content<'a> {
    // The parts that a trailer points back over.
    fn cut(trailer: Trailer, parts: &'a [u8]) -> Content<'a>
        requires whole { length parts.now ≡ span trailer }
        requires limits { within_limits trailer ≡ true }
        ensures { parts_of result ≡ parts_at trailer parts.now }
    {
        let Kind::Sealed(suite) = trailer.kind else {
            return Content::Idle { fill: parts };
        };
        let (nonce, parts) = parts.split_at(usize::from(trailer.nonce));
        let (header, parts) = parts.split_at(usize::from(trailer.header));
        let (body, tag) = parts.split_at(usize::from(trailer.body));
        Content::Sealed {
            suite,
            nonce,
            header,
            body,
            tag,
        }
    }
}

// What the walk hands out. Only the walk makes one.
#[derive(Clone, Copy, PartialEq, Eq, Debug)]
pub struct Frame<'a> {
    content: Content<'a>,
    number: usize,
    place: usize,
    len: usize,
}

impl<'a> Frame<'a> {
    // The fields are private, so that only this crate makes a frame.
    pub(crate) fn new(content: Content<'a>, number: usize, place: usize, len: usize) -> Frame<'a>
        ensures { result ≡ record { content = content.entry; number = number; place = place; len = len } }
    {
        Frame {
            content,
            number,
            place,
            len,
        }
    }

    pub fn content(&self) -> Content<'a>
        ensures { result ≡ self.now.content }
    {
        self.content
    }

    pub fn kind(&self) -> Kind
        ensures { result ≡ (parts_of self.now.content).kind }
    {
        match self.content {
            Content::Idle { .. } => Kind::Idle,
            Content::Sealed { suite, .. } => Kind::Sealed(suite),
        }
    }

    // The frame's number, from 0 at the file's end.
    pub fn number(&self) -> usize
        ensures { result ≡ self.now.number }
    {
        self.number
    }

    // The place of the frame's first byte, from the file's first.
    pub fn place(&self) -> usize
        ensures { result ≡ self.now.place }
    {
        self.place
    }

    // The bytes of the whole frame, with its trailer.
    pub fn len(&self) -> usize
        ensures { result ≡ self.now.len }
    {
        self.len
    }
}

// The frame that ends some bytes, and the bytes before it.
#[derive(Drop)]
pub(crate) struct Last<'a> {
    pub(crate) rest: &'a [u8],
    pub(crate) content: Content<'a>,
}

impl<'a> Model for Last<'a> {
    ghost Value = { Cut };

    ghost view = { λ l. record { rest = l.rest.now; parts = parts_of l.content } };
}

impl<'a> Last<'a> {
    // Cuts the parts that a trailer tells of off the bytes before it.
    fn cut(trailer: Trailer, before: &'a [u8]) -> Result<Last<'a>, Cause>
        ensures { result ≡ cut_of trailer before.now }
    {
        if !trailer.is_within_limits() {
            return Err(Cause::BadLength);
        }
        let rest_len = before
            .len()
            .checked_sub(trailer.span())
            .ok_or(Cause::Overrun)?;
        let (rest, parts) = before.split_at(rest_len);
        Ok(Last {
            rest,
            content: Content::cut(trailer, parts),
        })
    }
}

// The frame that ends `bytes`, by the checks in their order.
pub(crate) fn last_frame(bytes: &[u8]) -> Result<Last<'_>, Cause>
    ensures { result ≡ checked bytes.now (trailer_of bytes.now) }
{
    let (before, trailer) = bytes.split_last_chunk::<TRAILER_LEN>().ok_or(Cause::Short)?;
    Last::cut(Trailer::read(trailer)?, before)
}
