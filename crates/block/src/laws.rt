// A law of every kind of block: a call does nothing, and its promise is the law.
ghost use Rattle.block.specs.ByBytes.{ByBytes};

use crate::block::Block;

// A block has n bytes, is given by them, and is read as the number that they write.
pub fn a_block_is_its_bytes<B: Block>()
    ensures { ByBytes B.form }
{}
