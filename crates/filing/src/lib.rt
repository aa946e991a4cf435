// The lines of a text written to a shelf as a file, and the lines of a file read into a text.
#![tactic(auto)]

mod count;
pub mod reading_files;
pub mod writing;
