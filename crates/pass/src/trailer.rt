// The eight bytes that end a frame: they point back over its parts.
ghost use Rattle.std.specs.Prelude.{◌≡◌};
ghost use Rattle.pass.specs.Layout.{span, within_limits};
ghost use Rattle.pass.specs.Reading.{trailer_in};

use wire::fault::Cause;
use wire::kind::Kind;
use wire::limits::{HEADER_MAX, MESSAGE_MAX, is_tag_len};

const MARK: u8 = 0xA7;

pub(crate) const TRAILER_LEN: usize = 8;

// A frame's kind, and the lengths of its parts.
#[derive(Clone, Copy)]
pub(crate) struct Trailer {
    pub(crate) kind: Kind,
    pub(crate) nonce: u8,
    pub(crate) tag: u8,
    pub(crate) header: u16,
    pub(crate) body: u16,
}

impl Trailer {
    // The trailer that these bytes are, if they end in the mark and tell a kind.
    pub(crate) fn read(bytes: &[u8; TRAILER_LEN]) -> Result<Trailer, Cause>
        ensures { result ≡ trailer_in bytes.now }
    {
        let [
            nonce,
            tag,
            header_high,
            header_low,
            body_high,
            body_low,
            kind,
            mark,
        ] = *bytes;
        if mark != MARK {
            return Err(Cause::NoMark);
        }
        Ok(Trailer {
            kind: Kind::try_from(kind)?,
            nonce,
            tag,
            header: u16::from_be_bytes([header_high, header_low]),
            body: u16::from_be_bytes([body_high, body_low]),
        })
    }

    // Whether the kind takes these lengths.
    pub(crate) fn is_within_limits(self) -> bool
        ensures { result ≡ within_limits self }
    {
        let takes = match self.kind {
            Kind::Idle => self.nonce == 0 && self.tag == 0 && self.header == 0,
            Kind::Sealed(suite) => is_tag_len(suite.block_len(), usize::from(self.tag)),
        };
        usize::from(self.header) <= HEADER_MAX && usize::from(self.body) <= MESSAGE_MAX && takes
    }

    // The length of all parts together.
    pub(crate) fn span(self) -> usize
        ensures { result ≡ span self }
    {
        usize::from(self.nonce)
            + usize::from(self.header)
            + usize::from(self.body)
            + usize::from(self.tag)
    }
}
