// Reading a command line: from the left, up to the first fault.
#![tactic(auto)]

mod letter;
pub mod line;
mod reader;
pub mod setting;
