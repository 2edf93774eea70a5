// Loading a key: one text for every cipher.
ghost use Rattle.std.specs.Prelude.{◌≡◌, ℕ, List, length, replicate};
ghost use Rattle.cipher.specs.Loading.{Loads};

use crate::cipher::Cipher;
use crate::guard::LentKey;
use wire::fault::RecordFault;

pub trait Keyed: Cipher {
    const KEY_LEN: usize;

    // What the constant is in clauses.
    ghost KEY_LEN: { ℕ };

    // The cipher under some key bytes.
    ghost under: { List ℕ → Self };

    // A cipher with a key of all 00.
    fn fresh() -> Self
        ensures { result ≡ under (replicate KEY_LEN 0) };

    // Takes these key bytes; `load` is the call that refuses any other count than `KEY_LEN`.
    fn set_key(&mut self, key: &[u8])
        ensures { self.new ≡ under key.now };
}

// Loads the lent key bytes into the lent cipher, and answers their count. Whatever the answer, the bytes end as 00.
pub fn load<C: Keyed>(cipher: &mut C, key: &mut [u8]) -> Result<usize, RecordFault>
    ensures step { Loads C.KEY_LEN C.under cipher.old key.old result cipher.new }
    ensures zeroed { key.new ≡ replicate (length key.old) 0 }
{
    let lent = LentKey { bytes: key };
    let bytes = lent.bytes();
    if bytes.len() != C::KEY_LEN {
        return Err(RecordFault::KeyLength);
    }
    cipher.set_key(bytes);
    Ok(bytes.len())
}
