// A session: what it remembers besides text, keep and shelf, which are handed in with each line.
use crate::mode::Mode;
use shelf::label::Label;

#[derive(Clone, Copy)]
pub struct Session {
    pub mode: Mode,
    // The current line of the text, and of the keep; 0 for none. The keep has one where there is nothing to undo too, so it is no
    // `Option` that would say both.
    pub current: usize,
    pub kept_current: usize,
    // The capacity of text and keep.
    pub capacity: usize,
    // The remembered name.
    pub name: Option<Label>,
    // Whether there is something to undo.
    pub undoable: bool,
    pub unsaved: bool,
    // Whether the last line past the entry checks was refused for unsaved text.
    pub warned: bool,
}
