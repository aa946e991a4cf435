// Obeying the commands that no list may hold, and taking the lines that are typed in text mode.
#![tactic(auto)]

pub mod appending;
pub mod quitting;
pub mod reading_in;
mod saving;
pub mod undoing;
