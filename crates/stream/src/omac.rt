// OMAC of a whole string, by its chain.
ghost use Rattle.std.specs.Prelude.{◌≡◌};
ghost use Rattle.mode.specs.Strings.{omac as omac_of};
ghost use Rattle.stream.specs.Tweaks.{tweak_number};

use crate::chain::Chain;
use crate::tweak::Tweak;
use cipher::cipher::Cipher;

pub fn omac<C: Cipher>(cipher: &C, tweak: Tweak, string: &[u8]) -> C::Block
    ensures { result ≡ omac_of C.Block.Block.form (C.f cipher.now) (tweak_number tweak) string.now }
{
    let mut chain = Chain::holding(tweak.block());
    chain.feed(cipher, string);
    chain.finish(cipher)
}
