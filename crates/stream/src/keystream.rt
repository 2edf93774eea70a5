// The keystream of CTR, used up byte by byte.
ghost use Rattle.std.specs.Prelude.{◌≡◌, bit_xor};
ghost use Rattle.stream.specs.Counting.{starting_at, next_byte, stepped, enciphered, advanced};

use block::block::Block;
use cipher::cipher::Cipher;

#[derive(Drop)]
pub struct Keystream<B> {
    pub(crate) counter: B,
    pub(crate) mask: B,
    // The bytes of the mask that are used up.
    pub(crate) used: usize,
}

impl<B: Block> Keystream<B> {
    pub fn starting_at(counter: B) -> Keystream<B>
        ensures { result ≡ starting_at B.form counter }
    {
        Keystream {
            counter,
            mask: B::zero(),
            used: B::width(),
        }
    }

    // Xors the next bytes into a text, in place.
    #[tactic(auto, unfolding(crate::specs::Counting::enciphered, crate::specs::Counting::advanced))]
    pub fn apply<C: Cipher<Block = B>>(&mut self, cipher: &C, text: &mut [u8])
        ensures value { text.new ≡ enciphered B.form (C.f cipher.now) self.old text.old }
        ensures after { self.new ≡ advanced B.form (C.f cipher.now) self.old text.old }
    {
        for byte in text.iter_mut() {
            *byte = self.encipher(cipher, *byte);
        }
    }

    fn encipher<C: Cipher<Block = B>>(&mut self, cipher: &C, byte: u8) -> u8
        ensures value { result ≡ bit_xor byte (next_byte B.form (C.f cipher.now) self.old) }
        ensures after { self.new ≡ stepped B.form (C.f cipher.now) self.old }
    {
        if self.used >= B::width() {
            self.mask = cipher.encrypt(self.counter);
            self.counter = self.counter.next();
            self.used = 0;
        }
        let key_byte = self.mask.byte(self.used);
        self.used += 1;
        byte ^ key_byte
    }
}
