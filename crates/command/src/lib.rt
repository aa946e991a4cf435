// What a command line says: its addresses, its command with all that belongs to it, and the faults of a given line.
#![tactic(auto)]

pub mod fault;
pub mod list;
pub mod mark;
pub mod replacement;
pub mod said;
