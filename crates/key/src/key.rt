// A key: a cipher, and the H-block of a header that was prepared.
ghost use Rattle.std.specs.Prelude.{◌≡◌, ℕ, List, []};
ghost use Rattle.key.specs.Runs.{Keys, last_of};
ghost use Rattle.key.specs.Steps.{Made, Prepares};

use crate::header::Header;
use cipher::cipher::Cipher;
use wire::fault::RecordFault;

// It cannot be copied, and a record takes it in: a key serves one record at a time.
#[derive(Drop)]
pub struct Key<C: Cipher> {
    cipher: C,
    prepared: C::Block,
}

impl<C: Cipher> Key<C> {
    // Takes a cipher in; the empty header is prepared.
    pub fn new(cipher: C) -> Key<C>
        ensures step { Made C.Block.form C.f cipher result }
        ensures run { Keys C.Block.form C.f cipher [] result }
    {
        let prepared = Header::new().end(&cipher);
        Key { cipher, prepared }
    }

    // Prepares a whole header, and answers its length.
    pub fn prepare(&mut self, header: &[u8]) -> Result<usize, RecordFault>
        ensures step { Prepares C.Block.form C.f self.old header.now result self.new }
        ensures run { (cipher : C) (last : List ℕ) → Keys C.Block.form C.f cipher last self.old → Keys C.Block.form C.f cipher (last_of last header.now result) self.new }
    {
        let mut whole = Header::new();
        let count = whole.join(&self.cipher, header)?;
        self.prepared = whole.end(&self.cipher);
        Ok(count)
    }

    // The cipher, for the calls of a record.
    pub fn cipher(&self) -> &C
        ensures { result.now ≡ self.now.cipher }
    {
        &self.cipher
    }

    // The prepared block, for the calls of a record.
    pub fn prepared(&self) -> C::Block
        ensures { result ≡ self.now.prepared }
    {
        self.prepared
    }

    // Gives the cipher back.
    pub fn into_cipher(self) -> C
        ensures value { result ≡ self.cipher }
        ensures run { (cipher : C) (last : List ℕ) → Keys C.Block.form C.f cipher last self → result ≡ cipher }
    {
        self.cipher
    }
}
