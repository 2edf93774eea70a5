// The second stage of a sealing: pieces of the message become ciphertext.
ghost use Rattle.std.specs.Prelude.{◌≡◌, ℕ, List};
ghost use Rattle.key.specs.Runs.{Keys};
ghost use Rattle.seal.specs.Steps.{BeginsPrepared, NoMessage, Sealing, Closes};
ghost use Rattle.seal.specs.Transcripts.{Origin, begun_on, Transcript, unsealed, with_message};
ghost use Rattle.seal.specs.Runs.{AtMessage, AtTag, GivenBack, MessageAnswer, Faithful};

use crate::tag::TagStage;
use block::block::Block;
use cipher::cipher::Cipher;
use key::key::Key;
use key::length::Length;
use stream::chain::Chain;
use stream::keystream::Keystream;
use stream::omac::omac;
use stream::tweak::Tweak;
use wire::fault::RecordFault;
use wire::limits::MESSAGE_MAX;

#[derive(Drop)]
pub struct MessageStage<C: Cipher> {
    key: Key<C>,
    nonce: C::Block,
    header: C::Block,
    keystream: Keystream<C::Block>,
    // The MAC of the ciphertext.
    mac: Chain<C::Block>,
    count: Length<MESSAGE_MAX>,
}

impl<C: Cipher> MessageStage<C> {
    // The prepared start of a record, which takes the key in: its header is the one that the key last prepared.
    pub fn start(key: Key<C>, nonce: &[u8]) -> MessageStage<C>
        ensures step { BeginsPrepared C.Block.form C.f key nonce.now result }
        ensures run { (cipher : C) (last : List ℕ) → Keys C.Block.form C.f cipher last key → AtMessage C.Block.form C.f (begun_on cipher last key) (unsealed nonce.now last) result }
    {
        let nonce = omac(key.cipher(), Tweak::Nonce, nonce);
        let header = key.prepared();
        MessageStage::new(key, nonce, header)
    }

    pub(crate) fn new(key: Key<C>, nonce: C::Block, header: C::Block) -> MessageStage<C>
        ensures { NoMessage C.Block.form C.f key nonce header result }
    {
        MessageStage {
            key,
            nonce,
            header,
            keystream: Keystream::starting_at(nonce),
            mac: Chain::holding(Tweak::Ciphertext.block()),
            count: Length::zero(),
        }
    }

    // Puts the ciphertext of a piece at the front of a buffer, and answers the message's length so far.
    pub fn piece(&mut self, piece: &[u8], out: &mut [u8]) -> Result<usize, RecordFault>
        ensures step { Sealing C.Block.form C.f self.old piece.now out.old result self.new out.new }
        ensures run { (origin : Origin C C.Block) (so_far : Transcript) → AtMessage C.Block.form C.f origin so_far self.old → AtMessage C.Block.form C.f origin (with_message so_far piece.now out.new result) self.new }
        ensures answer { (origin : Origin C C.Block) (so_far : Transcript) → AtMessage C.Block.form C.f origin so_far self.old → MessageAnswer so_far.message piece.now out.old result }
        ensures rule { (origin : Origin C C.Block) (so_far : Transcript) → AtMessage C.Block.form C.f origin so_far self.old → Faithful C.Block.form C.f origin.cipher (with_message so_far piece.now out.new result) }
    {
        if out.len() < piece.len() {
            return Err(RecordFault::BufferTooShort);
        }
        let count = self
            .count
            .grow(piece.len())
            .ok_or(RecordFault::MessageTooLong)?;
        let front = &mut out[..piece.len()];
        front.copy_from_slice(piece);
        self.keystream.apply(self.key.cipher(), front);
        self.mac.feed(self.key.cipher(), front);
        Ok(count)
    }

    // The message is whole: on to the tag.
    pub fn close(self) -> TagStage<C>
        ensures step { Closes C.Block.form C.f self result }
        ensures run { (origin : Origin C C.Block) (so_far : Transcript) → AtMessage C.Block.form C.f origin so_far self → AtTag C.Block.form C.f origin so_far result }
    {
        let ciphertext = self.mac.finish(self.key.cipher());
        TagStage {
            key: self.key,
            block: self.nonce.xor(self.header).xor(ciphertext),
        }
    }

    // Gives the record up, and the key back.
    pub fn abandon(self) -> Key<C>
        ensures value { result ≡ self.key }
        ensures run { (origin : Origin C C.Block) (so_far : Transcript) → AtMessage C.Block.form C.f origin so_far self → GivenBack C.Block.form C.f origin result }
    {
        self.key
    }
}
