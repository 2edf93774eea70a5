// What the streams come to, for every kind of block and every F: a call does nothing, and its promise is the law.
ghost use Rattle.stream.specs.Laws.{Chains, Counts};

use block::block::Block;

// A chain comes to CMAC, or OMAC after a tweak, however the string is cut.
pub fn chain_is_cmac<B: Block>()
    ensures { (F : B → B) → Chains B.form F }
{}

// The keystream gives CTR, however the string is cut.
pub fn keystream_is_ctr<B: Block>()
    ensures { (F : B → B) → Counts B.form F }
{}
