// A shelf in one run of memory: the files stand back to back, and no call after making allocates.
#![tactic(auto)]

pub mod files;
mod memory;
mod moves;
pub mod packed;
mod part;
mod row;
mod rows;
