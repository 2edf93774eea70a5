// The sum of three blocks, as a tag block is.
ghost use Rattle.mode.specs.Laws.{AnyOrder};

use block::block::Block;

// The order of the three does not matter.
pub fn sum<B: Block>(a: B, b: B, c: B) -> B
    ensures { AnyOrder B.form a b c result }
{
    a.xor(b).xor(c)
}
