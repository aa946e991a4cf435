// A pattern: an optional front anchor, up to 64 items in order, an optional end anchor.
use crate::byte_set::ByteSet;
use arrayvec::ArrayVec;

mod parts;
mod read;
mod reader;

const ITEMS_MAX: usize = 64;

// One byte of the set or, if starred, any number of them.
#[derive(Clone, Copy, Default)]
pub struct Item {
    pub set: ByteSet,
    pub starred: bool,
}

#[derive(Drop)]
pub struct Pattern {
    front: bool,
    items: ArrayVec<Item, ITEMS_MAX>,
    back: bool,
}
