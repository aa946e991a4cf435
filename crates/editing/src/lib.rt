// Edits of texts that any line store holds, as commands do them.
#![tactic(auto)]

pub mod blocks;
pub mod keeping;
pub mod single;
mod swapping;
