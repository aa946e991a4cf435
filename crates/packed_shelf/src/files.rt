// The packed shelf as a shelf: making one, and the calls of the interface.
ghost use Rattle.packed_shelf.specs.Making.{Made};
ghost use Rattle.packed_shelf.specs.Meaning.{meaning_of};
ghost use Rattle.packed_shelf.specs.Kept.{packed-sound};
ghost use Rattle.packed_shelf.specs.State.{kept};

use crate::packed::PackedShelf;
use crate::part::copy_from;
use making::MakeFault;
use shelf::fault::ShelfFault;
use shelf::interface::{FILES_MAX, SHELF_MAX, Shelf};
use shelf::name::{begins_with, is_name};
use std::alloc::Global;

impl PackedShelf {
    // An empty shelf for so many bytes. All memory that it ever needs is taken here.
    pub fn new(heap: Global, capacity: usize) -> Result<PackedShelf, MakeFault>
        ensures { Made meaning_of capacity result }
    {
        if capacity > SHELF_MAX {
            return Err(MakeFault::Capacity);
        }
        let rows = Vec::with_capacity(heap, FILES_MAX)?;
        let bytes = Vec::from_elem(heap, 0u8, capacity)?;
        Ok(PackedShelf { rows, bytes })
    }
}

impl Shelf for PackedShelf {
    ghost meaning = { meaning_of };

    ghost sound = { λ s. packed-sound s.rows.items s.bytes.items (kept s) };

    fn lookup(&self, name: &[u8]) -> Option<usize> {
        self.row_called(name).map(|row| row.number)
    }

    fn size(&self, file: usize) -> Result<usize, ShelfFault> {
        let row = self.row(file).ok_or(ShelfFault::NoFile)?;
        Ok(row.size)
    }

    fn begins(&self, file: usize, prefix: &[u8]) -> Result<bool, ShelfFault> {
        let row = self.row(file).ok_or(ShelfFault::NoFile)?;
        Ok(begins_with(row.name.text(), prefix))
    }

    fn copy(&self, file: usize, from: usize, buffer: &mut [u8]) -> Result<usize, ShelfFault> {
        let contents = self.contents(file).ok_or(ShelfFault::NoFile)?;
        Ok(copy_from(contents, from, buffer))
    }

    fn clear(&mut self, name: &[u8], size: usize) -> Result<usize, ShelfFault> {
        if !is_name(name) {
            return Err(ShelfFault::BadName);
        }
        match self.lookup(name) {
            Some(file) => self.empty_old(file, size),
            None => self.make_new(name, size),
        }
    }

    fn add(&mut self, file: usize, bytes: &[u8]) -> Result<(), ShelfFault> {
        let place = self.place(file).ok_or(ShelfFault::NoFile)?;
        if bytes.len() > self.free() {
            return Err(ShelfFault::Full);
        }
        self.lengthen(place, bytes);
        Ok(())
    }
}
