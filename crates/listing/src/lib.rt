// The listing of a pass file as text: a line for each frame in walk order, and a last line that says how it ended.
#![tactic(auto)]

mod line;
pub mod list;
