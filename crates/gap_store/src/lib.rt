// A line store with a gap: putting and removing lines at one place moves nothing, and moving that place
// moves only the bytes between.
#![tactic(auto)]

mod gapped;
mod laying;
mod row;
mod store;

pub use store::GapStore;
