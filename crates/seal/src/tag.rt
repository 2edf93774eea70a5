// The last stage of a sealing: tags are given out.
ghost use Rattle.std.specs.Prelude.{◌≡◌};
ghost use Rattle.seal.specs.Steps.{Tagging};
ghost use Rattle.seal.specs.Transcripts.{Origin, Transcript, with_tag};
ghost use Rattle.seal.specs.Runs.{AtTag, GivenBack, Faithful};

use block::block::Block;
use cipher::cipher::Cipher;
use key::key::Key;
use wire::fault::RecordFault;
use wire::limits::is_tag_len;

#[derive(Drop)]
pub struct TagStage<C: Cipher> {
    pub(crate) key: Key<C>,
    pub(crate) block: C::Block,
}

impl<C: Cipher> TagStage<C> {
    // Fills the buffer with the tag of that length, and answers the length.
    pub fn tag(&self, out: &mut [u8]) -> Result<usize, RecordFault>
        ensures step { Tagging C.Block.form C.f self.now out.old result out.new }
        ensures run { (origin : Origin C C.Block) (so_far : Transcript) → AtTag C.Block.form C.f origin so_far self.now → AtTag C.Block.form C.f origin (with_tag so_far out.new result) self.now }
        ensures rule { (origin : Origin C C.Block) (so_far : Transcript) → AtTag C.Block.form C.f origin so_far self.now → Faithful C.Block.form C.f origin.cipher (with_tag so_far out.new result) }
    {
        if !is_tag_len(C::Block::width(), out.len()) {
            return Err(RecordFault::TagLength);
        }
        for (place, byte) in out.iter_mut().enumerate() {
            *byte = self.block.byte(place);
        }
        Ok(out.len())
    }

    // Ends the record, and gives the key back.
    pub fn end(self) -> Key<C>
        ensures value { result ≡ self.key }
        ensures run { (origin : Origin C C.Block) (so_far : Transcript) → AtTag C.Block.form C.f origin so_far self → GivenBack C.Block.form C.f origin result }
    {
        self.key
    }
}
