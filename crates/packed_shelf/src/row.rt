// A row of the directory: a file's number, name and size.
use shelf::label::Label;

// The files stand in memory in the order of their rows, so a row need not say where its file starts.
#[derive(Clone, Copy)]
pub struct Row {
    pub number: usize,
    pub name: Label,
    pub size: usize,
}
