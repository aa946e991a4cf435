// The interface of a shelf, by what the shelf means: its files, its capacity and the names it protects.
ghost use Rattle.std.specs.Prelude.{◌≡◌, length};
ghost use Rattle.shelf.specs.Shelf.{Shelf, Sound, lookup_answer, size_answer, begins_answer, copy_answer, copy_after, clear_answer, clear_after, add_answer, add_after};

use crate::fault::ShelfFault;

// The most files that a shelf holds.
pub const FILES_MAX: usize = 8;

// The most bytes that a shelf may be made for.
pub const SHELF_MAX: usize = 1_048_576;

pub trait Shelf {
    ghost meaning: { Self → Shelf };

    // The number of the file of this name, from 0 in order of making.
    fn lookup(&self, name: &[u8]) -> Option<usize>
        ensures { result ≡ lookup_answer (meaning self.now) name.now };

    // How many bytes a file holds.
    fn size(&self, file: usize) -> Result<usize, ShelfFault>
        ensures { result ≡ size_answer (meaning self.now) file };

    // Whether a file's name begins with these bytes.
    fn begins(&self, file: usize, prefix: &[u8]) -> Result<bool, ShelfFault>
        ensures { result ≡ begins_answer (meaning self.now) file prefix.now };

    // Copies what stands in a file from a place on to the start of `buffer`, as much as fits, and
    // answers how many bytes that was.
    fn copy(&self, file: usize, from: usize, buffer: &mut [u8]) -> Result<usize, ShelfFault>
        ensures value { result ≡ copy_answer (meaning self.now) file from (length buffer.old) }
        ensures after { buffer.new ≡ copy_after (meaning self.now) file from buffer.old };

    // Empties the file of this name, or makes it behind the others, where `size` bytes are going to
    // fit in it; answers its number.
    fn clear(&mut self, name: &[u8], size: usize) -> Result<usize, ShelfFault>
        ensures value { result ≡ clear_answer (meaning self.old) name.now size }
        ensures after { meaning self.new ≡ clear_after (meaning self.old) name.now size };

    // Puts bytes at the end of a file.
    fn add(&mut self, file: usize, bytes: &[u8]) -> Result<(), ShelfFault>
        ensures value { result ≡ add_answer (meaning self.old) file bytes.now }
        ensures after { meaning self.new ≡ add_after (meaning self.old) file bytes.now };

    // What every shelf keeps: few files, good names that differ, and contents within the capacity.
    ghost sound: { (x : Self) → Sound (meaning x) };
}
