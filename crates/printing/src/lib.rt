// What is printed onto a sheet: bytes, numbers and lines of a text.
#![tactic(auto)]

pub mod listing;
pub mod numbers;
pub mod sheet;
