// The lines of a listing, without their newlines.
ghost use Rattle.std.specs.Prelude.{Some};
ghost use Rattle.listing.specs.Lines.{line_text, stopped_text};

use pass::frame::Frame;
use std::fmt;
use wire::fault::ListFault;

// A frame's line: its number, kind, place and length.
#[derive(Clone, Copy)]
pub(crate) struct Line<'a>(pub(crate) Frame<'a>);

impl<'a> fmt::Display for Line<'a> {
    ghost output = { λ l. Some (line_text l) };

    fn fmt<W: fmt::Write>(&self, f: &mut fmt::Formatter<W>) -> fmt::Result {
        let Line(frame) = *self;
        write!(
            f,
            "{} {} {} {}",
            frame.number(),
            u8::from(frame.kind()),
            frame.place(),
            frame.len()
        )
    }
}

// What ended a listing before the file's start, and the bytes left then.
#[derive(Clone, Copy)]
pub(crate) struct Stopped {
    pub(crate) fault: ListFault,
    pub(crate) left: usize,
}

impl fmt::Display for Stopped {
    ghost output = { λ s. Some (stopped_text s) };

    fn fmt<W: fmt::Write>(&self, f: &mut fmt::Formatter<W>) -> fmt::Result {
        write!(f, "fault {} {}", self.fault.number(), self.left)
    }
}
