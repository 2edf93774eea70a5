// A cipher for tests, with blocks and a key of 16 bytes: F(b) is b xor the key, and one more. Its kind is that of AES-128,
// the one kind that has blocks of 16 bytes.
ghost use Rattle.block.specs.Blocks.{xored, following, block_of};
ghost use Rattle.block.specs.Kinds.{form16};
ghost use Rattle.wire.specs.declared.kind.Suite.TheVariants.{Aes128};
ghost use Rattle.std.proofs.Common.{rules};

use block::block::Block;
use block::block16::Block16;
use cipher::cipher::Cipher;
use cipher::load::Keyed;
use wire::kind::Suite;

#[derive(Drop)]
pub struct Wide {
    key: Block16,
}

impl Cipher for Wide {
    type Block = Block16;

    const SUITE: Suite = Suite::Aes128;

    const N: usize = 16;

    ghost SUITE = { Aes128 };

    ghost N = { 16 };

    ghost f = { λ c b. following form16 (xored form16 b c.key) };

    ghost named = { Prim.search rules };

    ghost wide = { Prim.search rules };

    fn encrypt(&self, block: Block16) -> Block16 {
        block.xor(self.key).next()
    }
}

impl Keyed for Wide {
    const KEY_LEN: usize = 16;

    ghost KEY_LEN = { 16 };

    ghost under = { λ k. record { key = block_of form16 k } };

    fn fresh() -> Wide {
        Wide {
            key: Block16::zero(),
        }
    }

    fn set_key(&mut self, key: &[u8]) {
        self.key = Block16::from_bytes(key);
    }
}
