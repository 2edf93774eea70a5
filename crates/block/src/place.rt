// The place of a byte in a number.
ghost use Rattle.std.specs.Prelude.{◌≡◌, ◌*◌, ◌/◌, ◌%◌, ◌^◌, ◌<◌, ◌≤◌, MatchOption};
ghost use Rattle.block.specs.Blocks.{shift, replaced};

// Where the byte begins, in bits from the lowest: a number has 128 bits, and the byte lies within them.
#[derive(Clone, Copy)]
pub(crate) struct BytePlace {
    lowest: usize,
    ghost within: { lowest ≤ 120 },
}

impl BytePlace {
    // The place of a byte that is counted from the first of a block of `width` bytes, if the block has one there.
    pub(crate) fn of(width: usize, place: usize) -> Option<BytePlace>
        requires { width ≤ 16 }
        ensures { MatchOption result (width ≤ place) (λ at. (place < width) × (at.lowest ≡ shift width place)) }
    {
        if place >= width {
            return None;
        }
        Some(BytePlace {
            lowest: 8 * (width - 1 - place),
        })
    }

    pub(crate) fn get(self, number: u128) -> u8
        ensures { result ≡ number / 2 ^ self.lowest % 256 }
    {
        ((number >> self.lowest) % 256) as u8
    }

    // The number with another byte here: what is above it, the byte, and what is below it. A mask for the byte would be
    // shorter, and harder to prove right.
    pub(crate) fn put(self, number: u128, byte: u8) -> u128
        ensures { result ≡ replaced number self.lowest byte }
    {
        let unit = self.unit();
        (number / unit / 256 * 256 + u128::from(byte)) * unit + number % unit
    }

    // What the byte's lowest bit counts for.
    fn unit(self) -> u128
        ensures value { result ≡ 2 ^ self.lowest }
        ensures bound { 0 < result }
    {
        1 << self.lowest
    }
}
