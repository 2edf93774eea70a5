// A block of n bytes, read as a number.
#![tactic(auto)]

pub mod block;
pub mod block16;
pub mod block8;
pub mod kinds;
pub mod laws;
mod place;
