// What a session remembers between two lines. The session's own surface is the crate above; programs need nothing of this.
#![tactic(auto)]

pub mod desk;
pub mod gathered;
pub mod mode;
pub mod session;
