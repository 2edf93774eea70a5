// What both ends of the radio link agree on: the kinds of frame, the limits, and every fault with its number.
#![tactic(auto)]

pub mod fault;
pub mod kind;
pub mod limits;
