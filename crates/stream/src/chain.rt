// The chain of CMAC, fed in pieces. It knows no tweak, nor what its result is summed into.
ghost use Rattle.std.specs.Prelude.{◌≡◌};
ghost use Rattle.stream.specs.Chaining.{blank, holding, pushed, fed, finished};

use block::block::Block;
use cipher::cipher::Cipher;

#[derive(Drop)]
pub struct Chain<B> {
    pub(crate) sum: B,
    // The bytes of the last block so far. It waits until more come, or it is padded.
    pub(crate) held: B,
    pub(crate) count: usize,
}

impl<B: Block> Chain<B> {
    pub fn new() -> Chain<B>
        ensures { result ≡ blank B.form }
    {
        Chain {
            sum: B::zero(),
            held: B::zero(),
            count: 0,
        }
    }

    // A chain that was fed one block.
    pub fn holding(block: B) -> Chain<B>
        ensures { result ≡ holding B.form block }
    {
        Chain {
            sum: B::zero(),
            held: block,
            count: B::width(),
        }
    }

    #[tactic(auto, unfolding(crate::specs::Chaining::fed))]
    pub fn feed<C: Cipher<Block = B>>(&mut self, cipher: &C, piece: &[u8])
        ensures { self.new ≡ fed B.form (C.f cipher.now) self.old piece.now }
    {
        for byte in piece {
            self.push(cipher, *byte);
        }
    }

    pub fn finish<C: Cipher<Block = B>>(self, cipher: &C) -> B
        ensures { result ≡ finished B.form (C.f cipher.now) self }
    {
        let two_l = cipher.encrypt(B::ending(0)).double();
        let last = if self.count < B::width() {
            self.held.put(self.count, 0x80).xor(two_l.double())
        } else {
            self.held.xor(two_l)
        };
        cipher.encrypt(self.sum.xor(last))
    }

    fn push<C: Cipher<Block = B>>(&mut self, cipher: &C, byte: u8)
        ensures { self.new ≡ pushed B.form (C.f cipher.now) self.old byte }
    {
        if self.count >= B::width() {
            self.sum = cipher.encrypt(self.sum.xor(self.held));
            self.held = B::zero();
            self.count = 0;
        }
        self.held = self.held.put(self.count, byte);
        self.count += 1;
    }
}
