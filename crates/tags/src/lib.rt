// The marks and the chosen bits of lines, in any store of lines.
#![tactic(auto)]

pub mod chosen;
pub mod marks;
mod one_line;
pub mod tag;
