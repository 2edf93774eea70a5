// Frames of a pass file, and the walk that hands them out from the file's end.
#![tactic(auto)]

pub mod frame;
mod trailer;
pub mod walk;
