// What a packed shelf finds in its directory and memory, and how it changes them.
ghost use Rattle.std.specs.Prelude.{◌≡◌, ◌+◌, ◌<◌, ◌≤◌, true, false, length, Some, None, MatchOption};
ghost use Rattle.shelf.specs.Name.{is_name};
ghost use Rattle.shelf.specs.Shelf.{with_files, present, contents_at, held, lookup_answer, added};
ghost use Rattle.packed_shelf.specs.Clearing.{old_answer, old_after, new_answer, new_after};
ghost use Rattle.packed_shelf.specs.Finding.{Found, RowOf};
ghost use Rattle.packed_shelf.specs.Meaning.{meaning_of};
ghost use Rattle.packed_shelf.specs.Rows.{total, number_at};

use crate::moves::{empty_file, lengthen_file};
use crate::packed::PackedShelf;
use crate::row::Row;
use crate::rows::{place_called, place_of, start_of};
use shelf::fault::ShelfFault;
use shelf::interface::FILES_MAX;
use shelf::label::Label;

impl PackedShelf {
    // The place of a file's row.
    pub(crate) fn place(&self, file: usize) -> Option<usize>
        ensures { MatchOption result (present (meaning_of self.now) file ≡ false) (λ p. Found (meaning_of self.now) self.now.rows.items file p) }
    {
        place_of(&self.rows, file)
    }

    // A file's row.
    pub(crate) fn row(&self, file: usize) -> Option<&Row>
        ensures { MatchOption result (present (meaning_of self.now) file ≡ false) (λ row. RowOf (meaning_of self.now) file row.now) }
    {
        let place = self.place(file)?;
        Some(&self.rows[place])
    }

    // The row of the file of this name.
    pub(crate) fn row_called(&self, name: &[u8]) -> Option<&Row>
        ensures { MatchOption result (lookup_answer (meaning_of self.now) name.now ≡ None) (λ row. lookup_answer (meaning_of self.now) name.now ≡ Some row.now.number) }
    {
        let place = place_called(&self.rows, name)?;
        Some(&self.rows[place])
    }

    // The bytes of a file.
    pub(crate) fn contents(&self, file: usize) -> Option<&[u8]>
        ensures { MatchOption result (present (meaning_of self.now) file ≡ false) (λ c. (present (meaning_of self.now) file ≡ true) × (c.now ≡ contents_at (meaning_of self.now).files file)) }
    {
        let place = self.place(file)?;
        let start = start_of(&self.rows, place);
        let end = start_of(&self.rows, place + 1);
        Some(&self.bytes[start..end])
    }

    // How many bytes are free.
    pub(crate) fn free(&self) -> usize
        ensures { held (meaning_of self.now).files + result ≡ (meaning_of self.now).capacity }
    {
        self.bytes.len() - self.used()
    }

    // How many bytes the files take up.
    fn used(&self) -> usize
        ensures { result ≡ total self.now.rows.items }
    {
        start_of(&self.rows, self.rows.len())
    }

    // Puts bytes at the end of the file whose row is at `place`.
    pub(crate) fn lengthen(&mut self, place: usize, more: &[u8])
        requires within { place < length self.old.rows.items }
        requires fits { held (meaning_of self.old).files + length more.now ≤ (meaning_of self.old).capacity }
        ensures { meaning_of self.new ≡ with_files (meaning_of self.old) (added (meaning_of self.old).files (number_at self.old.rows.items place) more.now) }
    {
        lengthen_file(&mut self.rows, &mut self.bytes, place, more);
    }

    // Empties a file, if `size` bytes then fit in it.
    pub(crate) fn empty_old(&mut self, file: usize, size: usize) -> Result<usize, ShelfFault>
        ensures value { result ≡ old_answer (meaning_of self.old) file size }
        ensures after { meaning_of self.new ≡ old_after (meaning_of self.old) file size }
    {
        let place = self.place(file).ok_or(ShelfFault::NoFile)?;
        if size > self.free() + self.rows[place].size {
            return Err(ShelfFault::Full);
        }
        empty_file(&mut self.rows, &mut self.bytes, place);
        Ok(file)
    }

    // Makes an empty file behind the others, if there is a row for it and `size` bytes fit in it.
    pub(crate) fn make_new(&mut self, name: &[u8], size: usize) -> Result<usize, ShelfFault>
        requires good { is_name name.now ≡ true }
        requires missing { lookup_answer (meaning_of self.old) name.now ≡ None }
        ensures value { result ≡ new_answer (meaning_of self.old) name.now size }
        ensures after { meaning_of self.new ≡ new_after (meaning_of self.old) name.now size }
    {
        let label = Label::new(name).ok_or(ShelfFault::BadName)?;
        let number = self.rows.len();
        if number == FILES_MAX || size > self.free() {
            return Err(ShelfFault::Full);
        }
        self.rows.push_reserved(Row {
            number,
            name: label,
            size: 0,
        });
        Ok(number)
    }
}
