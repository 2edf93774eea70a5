// The bench cipher, for tests on the ground: a block is xored with the key. It keeps nothing secret.
ghost use Rattle.std.specs.Prelude.{◌≡◌, replicate};
ghost use Rattle.block.specs.Kinds.{form8};
ghost use Rattle.wire.specs.declared.kind.Suite.TheVariants.{Bench as BenchSuite};
ghost use Rattle.cipher.specs.Bench.{bench_f, bench_under};
ghost use Rattle.std.proofs.Common.{rules};

use crate::cipher::Cipher;
use crate::load::Keyed;
use block::block::Block;
use block::block8::Block8;
use wire::kind::Suite;

#[derive(Drop)]
pub struct Bench {
    key: Block8,
}

impl Cipher for Bench {
    type Block = Block8;

    const SUITE: Suite = Suite::Bench;

    const N: usize = 8;

    ghost SUITE = { BenchSuite };

    ghost N = { 8 };

    ghost f = { bench_f };

    ghost named = { Prim.search rules };

    ghost wide = { Prim.search rules };

    fn encrypt(&self, block: Block8) -> Block8
        ensures value { result ≡ bench_f self.now block }
        ensures width { 8 ≡ form8.size }
    {
        block.xor(self.key)
    }
}

impl Keyed for Bench {
    const KEY_LEN: usize = 8;

    ghost KEY_LEN = { 8 };

    ghost under = { bench_under };

    fn fresh() -> Bench
        ensures { result ≡ bench_under (replicate 8 0) }
    {
        Bench {
            key: Block8::zero(),
        }
    }

    fn set_key(&mut self, key: &[u8])
        ensures { self.new ≡ bench_under key.now }
    {
        self.key = Block8::from_bytes(key);
    }
}
