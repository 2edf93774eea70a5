// The two kinds of block offer what every kind does.
ghost use Rattle.block.specs.Kinds.{form8, form16};
ghost use Rattle.std.proofs.Common.{inl, inr};
ghost use Rattle.std.specs.Prelude.{refl};
ghost use Rattle.block.specs.Same.{same8, same16};
ghost use Rattle.block.specs.Xor.{lawful_by_number};

use crate::block::Block;
pub use crate::block8::Block8;
pub use crate::block16::Block16;

impl Block for Block8 {
    ghost form = { form8 };

    ghost lawful = { lawful_by_number form8 same8 (λ a. a.fits) (λ x. refl) (inl refl) };

    fn width() -> usize {
        8
    }

    fn number(self) -> u128 {
        u128::from(self.number)
    }

    fn from_number(number: u128) -> Block8 {
        Block8 {
            number: (number % (1 << 64)) as u64,
        }
    }
}

impl Block for Block16 {
    ghost form = { form16 };

    ghost lawful = { lawful_by_number form16 same16 (λ a. a.fits) (λ x. refl) (inr refl) };

    fn width() -> usize {
        16
    }

    fn number(self) -> u128 {
        self.number
    }

    fn from_number(number: u128) -> Block16 {
        Block16 { number }
    }
}
