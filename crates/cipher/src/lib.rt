// What a cipher means, how its key is loaded, and the bench cipher.
#![tactic(auto)]

pub mod bench;
pub mod cipher;
mod guard;
pub mod load;
