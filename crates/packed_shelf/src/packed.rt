// How a packed shelf lies in memory.
ghost use Rattle.std.specs.Prelude.{◌≤◌, length, vec_capacity};
ghost use Rattle.shelf.specs.Shelf.{Named, Apart};
ghost use Rattle.packed_shelf.specs.Packed.{files_of};
ghost use Rattle.packed_shelf.specs.Rows.{total, Numbered};

use crate::row::Row;

// The directory and the memory. The files stand back to back from byte 0, in the order of their rows.
#[derive(Drop)]
pub struct PackedShelf {
    pub(crate) rows: Vec<Row>,
    // As many bytes as the capacity, in use or free.
    pub(crate) bytes: Vec<u8>,
    ghost few: { length rows.items ≤ 8 },
    // There is room for all rows, so a row is added with no more memory.
    ghost reserved: { 8 ≤ vec_capacity rows },
    ghost bounded: { length bytes.items ≤ 1048576 },
    ghost within: { total rows.items ≤ length bytes.items },
    ghost numbered: { Numbered rows.items },
    ghost named: { Named (files_of rows.items bytes.items) },
    ghost apart: { Apart (files_of rows.items bytes.items) },
}
