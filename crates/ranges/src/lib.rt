// A range of lines that was worked out, as commands take it.
#![tactic(auto)]

pub mod range;
