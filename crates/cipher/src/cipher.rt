// What a cipher means: one function F from blocks to blocks.
ghost use Rattle.std.specs.Prelude.{◌≡◌, ℕ};
ghost use Rattle.wire.specs.Kinds.{suite_number};
ghost use Rattle.wire.specs.declared.kind.Suite.{Suite as TheSuite};
ghost use Rattle.cipher.specs.Naming.{SealedKind};

use block::block::Block;
use wire::kind::Suite;

pub trait Cipher {
    type Block: Block;

    // Names the kind of frame that this cipher seals.
    const SUITE: Suite;

    // n, the bytes of a block.
    const N: usize;

    // What the constants are in clauses.
    ghost SUITE: { TheSuite };

    ghost N: { ℕ };

    // The cipher's meaning, F.
    ghost f: { Self → Self.Block → Self.Block };

    // What the law `wide` says comes with each answer, too.
    fn encrypt(&self, block: Self::Block) -> Self::Block
        ensures value { result ≡ f self.now block }
        ensures width { N ≡ Self.Block.Block.form.size };

    // The number is that of a sealed kind of the one list of kinds, and n is that kind's.
    ghost named: { SealedKind (suite_number SUITE) N };

    // And n is that of the kind of block.
    ghost wide: { N ≡ Self.Block.Block.form.size };
}
