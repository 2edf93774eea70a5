// A kind of block: what every kind offers, and the laws that it proves.
ghost use Rattle.std.specs.Prelude.{◌≡◌, ℕ, ◌<◌, slice_index};
ghost use Rattle.block.specs.Form.{Form};
ghost use Rattle.block.specs.Lawful.{Lawful};
ghost use Rattle.block.specs.Blocks.{zero_block, end_block, xored, byte_at, with_byte_at, shifted_left, doubled, following, block_of};

use crate::place::BytePlace;

pub trait Block: Copy {
    // How a block is read as a number. What each call answers is a definition over this.
    ghost form: { Form Self };

    // n, the bytes of a block.
    fn width() -> usize
        ensures { result ≡ form.size };

    // The number that the block is read as: its first byte is the highest.
    fn number(self) -> u128
        ensures { result ≡ form.number self };

    // The block of a number, modulo 2 to the power 8n.
    fn from_number(number: u128) -> Self
        ensures { result ≡ form.block number };

    fn zero() -> Self
        ensures { result ≡ zero_block form }
    {
        Self::from_number(0)
    }

    // The block whose last byte is `last` and whose others are 00.
    fn ending(last: u8) -> Self
        ensures { result ≡ end_block form last }
    {
        Self::from_number(u128::from(last))
    }

    fn xor(self, other: Self) -> Self
        ensures { result ≡ xored form self other }
    {
        Self::from_number(self.number() ^ other.number())
    }

    // Shifted left by one bit; the top bit is dropped.
    fn shift_left(self) -> Self
        ensures { result ≡ shifted_left form self }
    {
        Self::from_number(self.number() << 1)
    }

    fn double(self) -> Self
        ensures { result ≡ doubled form self }
    {
        let shifted = self.shift_left();
        if self.byte(0) < 0x80 {
            return shifted;
        }
        let reduction = if Self::width() == 16 { 0x87 } else { 0x1B };
        shifted.xor(Self::ending(reduction))
    }

    // One more, modulo 2 to the power 8n.
    fn next(self) -> Self
        ensures { result ≡ following form self }
    {
        Self::from_number(self.number().wrapping_add(1))
    }

    // The byte at a place from the block's first; 00 past its last.
    fn byte(self, place: usize) -> u8
        ensures { result ≡ byte_at form self place }
    {
        BytePlace::of(Self::width(), place).map_or(0, |at| at.get(self.number()))
    }

    // The block with another byte at a place; past its last, nothing is replaced.
    fn put(self, place: usize, byte: u8) -> Self
        ensures { result ≡ with_byte_at form self place byte }
    {
        BytePlace::of(Self::width(), place).map_or(
            self,
            |at| Self::from_number(at.put(self.number(), byte)),
        )
    }

    // The block whose bytes are the first n of a string, and 00 where it has no more.
    fn from_bytes(bytes: &[u8]) -> Self
        ensures value { result ≡ block_of form bytes.now }
        ensures places { (i : ℕ) → i < form.size → byte_at form result i ≡ slice_index bytes.now i }
    {
        let mut block = Self::zero();
        for (place, byte) in bytes.iter().enumerate() {
            block = block.put(place, *byte);
        }
        block
    }

    // n is 8 or 16, a block is given by its number, and xor obeys its four laws.
    ghost lawful: { Lawful form };
}
