// One file of a shelf, by its number.
ghost use Rattle.std.specs.Prelude.{◌≡◌, true, length};
ghost use Rattle.shelf.specs.Shelf.{present, contents_at, copied};

use crate::interface::Shelf;

// A file that is there: a shelf, and the number of one of its files. So nothing that it is asked is refused.
#[derive(Drop)]
pub struct FileOf<'a, S: Shelf> {
    pub shelf: &'a S,
    pub file: usize,
    ghost there: { present (S.meaning shelf.now) file ≡ true },
}

impl<'a, S: Shelf> FileOf<'a, S> {
    // How many bytes it holds.
    pub fn size(&self) -> usize
        ensures { result ≡ length (contents_at (S.meaning self.now.shelf.now).files self.now.file) }
    {
        self.shelf.size(self.file).unwrap()
    }

    // What stands in it from a place on, as much as fits a buffer, to which it is copied.
    pub fn read<'b>(&self, from: usize, buffer: &'b mut [u8]) -> &'b [u8]
        ensures { result.now ≡ copied (S.meaning self.now.shelf.now) self.now.file from (length buffer.old) }
    {
        let size = self.shelf.copy(self.file, from, buffer).unwrap();
        &buffer[0..size]
    }
}
