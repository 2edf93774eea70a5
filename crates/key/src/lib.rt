// A key with its prepared header block, and the header of a record.
#![tactic(auto)]

pub mod header;
pub mod key;
pub mod length;
