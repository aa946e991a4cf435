// The work of `s` on the lines of a range: what it would make of a text, and the rewriting itself.
#![tactic(auto)]

mod cursor;
mod hits;
mod line;
pub mod reckoning;
pub mod rewriting;
mod rule;
mod spelling;
mod stepping;
