// A line store of slots that are chained by number: putting and removing a line relinks numbers and moves no text.
#![tactic(auto)]

mod links;
mod slot;
mod store;

pub use store::ChainStore;
