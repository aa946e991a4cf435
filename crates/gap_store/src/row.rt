// Where the bytes of one line lie, with the line's tag.
use lines::line::Tag;

#[derive(Clone, Copy)]
pub struct Row {
    pub start: usize,
    pub len: u8,
    pub tag: Tag,
}
