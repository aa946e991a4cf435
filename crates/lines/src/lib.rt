// Lines, and what a store of lines promises. The interface only: no store is in this crate.
#![tactic(auto)]

pub mod fault;
pub mod line;
pub mod line_of;
pub mod store;
