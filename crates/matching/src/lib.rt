// Matching: the first longest match of a pattern in a line.
#![tactic(auto)]

mod answer;
mod reach;
mod runs;
mod search;
mod start;

pub use answer::{Match, MatchFault};
pub use search::find;
