// The first stage of a sealing: pieces of the header are joined.
ghost use Rattle.std.specs.Prelude.{◌≡◌, ℕ, List, []};
ghost use Rattle.key.specs.Runs.{Keys};
ghost use Rattle.seal.specs.Steps.{Begins, Joining, Leaves};
ghost use Rattle.seal.specs.Transcripts.{Origin, begun_on, Transcript, unsealed, with_header};
ghost use Rattle.seal.specs.Runs.{AtHeader, AtMessage, GivenBack, HeaderAnswer};

use crate::message::MessageStage;
use cipher::cipher::Cipher;
use key::header::Header;
use key::key::Key;
use stream::omac::omac;
use stream::tweak::Tweak;
use wire::fault::RecordFault;

#[derive(Drop)]
pub struct HeaderStage<C: Cipher> {
    key: Key<C>,
    nonce: C::Block,
    header: Header<C::Block>,
}

impl<C: Cipher> HeaderStage<C> {
    // The plain start of a record, which takes the key in.
    pub fn start(key: Key<C>, nonce: &[u8]) -> HeaderStage<C>
        ensures step { Begins C.Block.form C.f key nonce.now result }
        ensures run { (cipher : C) (last : List ℕ) → Keys C.Block.form C.f cipher last key → AtHeader C.Block.form C.f (begun_on cipher last key) (unsealed nonce.now []) result }
    {
        let nonce = omac(key.cipher(), Tweak::Nonce, nonce);
        HeaderStage {
            key,
            nonce,
            header: Header::new(),
        }
    }

    // Joins a piece to the header, and answers the header's length so far.
    pub fn piece(&mut self, piece: &[u8]) -> Result<usize, RecordFault>
        ensures step { Joining C.Block.form C.f self.old piece.now result self.new }
        ensures run { (origin : Origin C C.Block) (so_far : Transcript) → AtHeader C.Block.form C.f origin so_far self.old → AtHeader C.Block.form C.f origin (with_header so_far piece.now result) self.new }
        ensures answer { (origin : Origin C C.Block) (so_far : Transcript) → AtHeader C.Block.form C.f origin so_far self.old → HeaderAnswer so_far.header piece.now result }
    {
        self.header.join(self.key.cipher(), piece)
    }

    // The header is whole: on to the message.
    pub fn leave(self) -> MessageStage<C>
        ensures step { Leaves C.Block.form C.f self result }
        ensures run { (origin : Origin C C.Block) (so_far : Transcript) → AtHeader C.Block.form C.f origin so_far self → AtMessage C.Block.form C.f origin so_far result }
    {
        let header = self.header.end(self.key.cipher());
        MessageStage::new(self.key, self.nonce, header)
    }

    // Gives the record up, and the key back.
    pub fn abandon(self) -> Key<C>
        ensures value { result ≡ self.key }
        ensures run { (origin : Origin C C.Block) (so_far : Transcript) → AtHeader C.Block.form C.f origin so_far self → GivenBack C.Block.form C.f origin result }
    {
        self.key
    }
}
