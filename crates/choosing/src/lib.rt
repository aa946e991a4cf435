// The lines that a global chooses, in any store of lines.
#![tactic(auto)]

pub mod choose;
mod wanting;
