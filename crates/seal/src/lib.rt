// Sealing a record in pieces, stage by stage.
#![tactic(auto)]

pub mod header;
pub mod message;
pub mod tag;
