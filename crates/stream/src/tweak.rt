// What tells the three MACs of EAX apart: the block [t] comes before the string.
ghost use Rattle.std.specs.Prelude.{◌≡◌};
ghost use Rattle.block.specs.Blocks.{end_block};
ghost use Rattle.stream.specs.Tweaks.{tweak_number};

use block::block::Block;

#[derive(Clone, Copy, PartialEq, Eq, Debug)]
pub enum Tweak {
    Nonce = 0,
    Header = 1,
    Ciphertext = 2,
}

impl Tweak {
    pub fn block<B: Block>(self) -> B
        ensures { result ≡ end_block B.form (tweak_number self) }
    {
        B::ending(self as u8)
    }
}
