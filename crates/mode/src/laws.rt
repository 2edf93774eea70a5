// The laws of the mode's strings, for every kind of block and every F: a call does nothing, and its promise is the law.
ghost use Rattle.std.specs.Prelude.{ℕ, List};
ghost use Rattle.mode.specs.Laws.{CtrUndoes, Opens};

use block::block::Block;

// CTR twice gives a string back, so a ciphertext has one message.
pub fn ctr_undoes_itself<B: Block>()
    ensures { (F : B → B) (S : B) (X : List ℕ) → CtrUndoes B.form F S X }
{}

// Opening hands out the message that gives the ciphertext and the tag, if there is one.
pub fn opening_is_exact<B: Block>()
    ensures { (F : B → B) (N H C T : List ℕ) → Opens B.form F N H C T }
{}
