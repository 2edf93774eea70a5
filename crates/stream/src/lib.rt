// The streams that compute the strings of EAX in pieces: the chain of a MAC, and the keystream of CTR.
#![tactic(auto)]

pub mod chain;
pub mod keystream;
pub mod laws;
pub mod omac;
pub mod tweak;
