// The header of a record, joined from pieces: one text for every kind of record.
ghost use Rattle.std.specs.Prelude.{◌≡◌};
ghost use Rattle.key.specs.Headers.{no_header, Joins, ended};

use crate::length::Length;
use block::block::Block;
use cipher::cipher::Cipher;
use stream::chain::Chain;
use stream::tweak::Tweak;
use wire::fault::RecordFault;
use wire::limits::HEADER_MAX;

#[derive(Drop)]
pub struct Header<B> {
    pub(crate) chain: Chain<B>,
    pub(crate) count: Length<HEADER_MAX>,
}

impl<B: Block> Header<B> {
    pub fn new() -> Header<B>
        ensures { result ≡ no_header B.form }
    {
        Header {
            chain: Chain::holding(Tweak::Header.block()),
            count: Length::zero(),
        }
    }

    // Joins a piece, and answers the header's length so far.
    pub fn join<C: Cipher<Block = B>>(
        &mut self,
        cipher: &C,
        piece: &[u8],
    ) -> Result<usize, RecordFault>
        ensures step { Joins B.form (C.f cipher.now) self.old piece.now result self.new }
    {
        let count = self
            .count
            .grow(piece.len())
            .ok_or(RecordFault::HeaderTooLong)?;
        self.chain.feed(cipher, piece);
        Ok(count)
    }

    // The H-block.
    pub fn end<C: Cipher<Block = B>>(self, cipher: &C) -> B
        ensures { result ≡ ended B.form (C.f cipher.now) self }
    {
        self.chain.finish(cipher)
    }
}
