// What EAX computes over what a cipher means, with its laws and some values worked by hand.
#![tactic(auto)]

pub mod laws;
pub mod sum;
pub mod table;
pub mod worked;
