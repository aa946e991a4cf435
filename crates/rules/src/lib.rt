// What a given line does, as definitions (specs/), and the laws that hold of them (proofs/). Each law is the contract of a
// function here: without its proof the crate does not stand.
#![tactic(auto)]

pub mod examples;
pub mod refusals;
pub mod round_trip;
pub mod settled;
pub mod turns;
pub mod undo;
