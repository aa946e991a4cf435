// Patterns, the basic regular expressions over bytes: what they are, and reading one from its bytes.
#![tactic(auto)]

mod byte_set;
mod fault;
mod pattern;

pub use byte_set::ByteSet;
pub use fault::PatternFault;
pub use pattern::{Item, Pattern};
