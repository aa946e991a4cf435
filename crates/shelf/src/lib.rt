// Shelves: what a place for named files promises. The interface only: no shelf is in this crate.
#![tactic(auto)]

pub mod fault;
pub mod file_of;
pub mod interface;
pub mod label;
pub mod name;
