// Working out addresses: which lines a command means.
#![tactic(auto)]

pub mod addresses;
pub mod lookup;
pub mod page;
