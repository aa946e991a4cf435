// A guard: a shelf over another shelf that also protects the names that begin with a prefix.
#![tactic(auto)]

pub mod fault;
pub mod guard;
