// EAX over whole strings, written as plainly as it can be, to run values by.
ghost use Rattle.std.specs.Prelude.{◌<◌};

use block::block::Block;
use cipher::cipher::Cipher;
use mode::sum::sum;
use std::alloc::{AllocError, Global};
use wire::fault::RecordFault;
use wire::limits::is_tag_len;

#[derive(Drop)]
pub(crate) struct Sealed<B> {
    pub(crate) ciphertext: Vec<u8>,
    pub(crate) tag_block: B,
}

#[derive(Drop)]
pub(crate) struct Eax<'a, C> {
    pub(crate) cipher: &'a C,
    pub(crate) heap: Global,
}

// What every record has: its nonce and its header.
#[derive(Drop)]
pub(crate) struct Record<'a, C> {
    eax: &'a Eax<'a, C>,
    nonce: &'a [u8],
    header: &'a [u8],
}

// The bytes of a block, from its first.
pub(crate) fn bytes<B: Block>(heap: Global, block: B) -> Result<Vec<u8>, AllocError> {
    (0..B::width()).map(|place| block.byte(place)).collect(heap)
}

// n. It is never 0, and `max` is how that is known here.
fn block_len<C: Cipher>() -> usize
    ensures { 0 < result }
{
    C::N.max(1)
}

impl<C: Cipher> Eax<'_, C> {
    // Pads a string, and says what its last block is masked with.
    fn padded(&self, string: &[u8]) -> Result<(Vec<u8>, C::Block), AllocError> {
        let n = block_len::<C>();
        let mask = self.cipher.encrypt(C::Block::ending(0)).double();
        let mut padded = string.to_vec(self.heap)?;
        if !string.is_empty() && string.len() % n == 0 {
            return Ok((padded, mask));
        }
        padded.push(0x80)?;
        let more = n - 1 - string.len() % n;
        padded.resize(padded.len().saturating_add(more), 0)?;
        Ok((padded, mask.double()))
    }

    pub(crate) fn cmac(&self, string: &[u8]) -> Result<C::Block, AllocError> {
        let n = block_len::<C>();
        let (padded, mask) = self.padded(string)?;
        let (front, last) = padded.as_slice().split_at(padded.len().saturating_sub(n));
        let value = front.chunks(n).fold(C::Block::zero(), |value, block| {
            self.cipher.encrypt(value.xor(C::Block::from_bytes(block)))
        });
        let last = C::Block::from_bytes(last).xor(mask);
        Ok(self.cipher.encrypt(value.xor(last)))
    }

    pub(crate) fn omac(&self, t: u8, string: &[u8]) -> Result<C::Block, AllocError> {
        let mut tweaked = bytes(self.heap, C::Block::ending(t))?;
        tweaked.extend_from_slice(string)?;
        self.cmac(tweaked.as_slice())
    }

    fn ctr(&self, start: C::Block, string: &[u8]) -> Result<Vec<u8>, AllocError> {
        let mut counter = start;
        let mut text = Vec::new(self.heap);
        for block in string.chunks(block_len::<C>()) {
            let stream = bytes(self.heap, self.cipher.encrypt(counter))?;
            for (byte, mask) in block.iter().zip(stream.as_slice()) {
                text.push(*byte ^ *mask)?;
            }
            counter = counter.next();
        }
        Ok(text)
    }

    // The record of a nonce and a header.
    pub(crate) fn record<'r>(&'r self, nonce: &'r [u8], header: &'r [u8]) -> Record<'r, C> {
        Record {
            eax: self,
            nonce,
            header,
        }
    }
}

impl<C: Cipher> Record<'_, C> {
    fn tag_block(&self, ciphertext: &[u8]) -> Result<C::Block, AllocError> {
        Ok(sum(
            self.eax.omac(0, self.nonce)?,
            self.eax.omac(1, self.header)?,
            self.eax.omac(2, ciphertext)?,
        ))
    }

    // CTR from the N-block.
    fn ctr(&self, string: &[u8]) -> Result<Vec<u8>, AllocError> {
        self.eax.ctr(self.eax.omac(0, self.nonce)?, string)
    }

    pub(crate) fn seal(&self, message: &[u8]) -> Result<Sealed<C::Block>, AllocError> {
        let ciphertext = self.ctr(message)?;
        let tag_block = self.tag_block(ciphertext.as_slice())?;
        Ok(Sealed {
            ciphertext,
            tag_block,
        })
    }

    pub(crate) fn open(
        &self,
        ciphertext: &[u8],
        tag: &[u8],
    ) -> Result<Result<Vec<u8>, RecordFault>, AllocError> {
        if !is_tag_len(C::N, tag.len()) {
            return Ok(Err(RecordFault::TagLength));
        }
        let block = bytes(self.eax.heap, self.tag_block(ciphertext)?)?;
        if !block.as_slice().starts_with(tag) {
            return Ok(Err(RecordFault::TagWrong));
        }
        Ok(Ok(self.ctr(ciphertext)?))
    }
}
