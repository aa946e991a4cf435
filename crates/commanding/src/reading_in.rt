// `e`
ghost use Rattle.std.specs.Prelude.{◌≡◌, ◌-◌, ◌≤◌, true, ◌++◌, length, drop};
ghost use Rattle.shelf.specs.Label.{is_label};
ghost use Rattle.shelf.specs.Shelf.{Shelf};
ghost use Rattle.command.specs.View.{name_view};
ghost use Rattle.filing.specs.Contents.{file_in};
ghost use Rattle.rules.specs.Commands.{loaded, edited};
ghost use Rattle.lines.specs.Line.{all_fit};
ghost use Rattle.rules.specs.Files.{split};
ghost use Rattle.state.specs.Worlds.{world_of};
ghost use Rattle.commanding.specs.Editing.{readable, read_named};
ghost use Rattle.commanding.specs.Outcomes.{fault_of, bytes_of};

use crate::saving::check_saved;
use command::fault::Fault;
use command::said::FileName;
use editing::blocks::empty;
use filing::reading_files::{load_file, tally_file};
use lines::store::LineStore;
use printing::numbers::{number_size, print_number};
use printing::sheet::HELD_BACK;
use shelf::file_of::FileOf;
use shelf::interface::Shelf;
use shelf::label::Label;
use state::desk::Desk;

// Replaces the text by the lines of a file, and empties the keep. Writes the file's size onto the sheet, which is empty so
// far, and answers how many bytes that is. Unsaved text is refused, unless the line before was refused for that.
pub fn edit<T: LineStore, K: LineStore, S: Shelf>(
    desk: &mut Desk<'_, '_, '_, T, K>,
    shelf: &S,
    name: FileName<'_>,
    sheet: &mut [u8],
) -> Result<usize, Fault>
    requires room { 16 ≤ length sheet.old }
    ensures value { fault_of result ≡ (edited (length sheet.old - 16) (world_of desk.old.session.now (T.LineStore.meaning desk.old.text.now) (K.LineStore.meaning desk.old.keep.now) (S.Shelf.meaning shelf.now)) (name_view name.entry)).fault }
    ensures bytes { bytes_of result ≡ length (edited (length sheet.old - 16) (world_of desk.old.session.now (T.LineStore.meaning desk.old.text.now) (K.LineStore.meaning desk.old.keep.now) (S.Shelf.meaning shelf.now)) (name_view name.entry)).out }
    ensures sheet { sheet.new ≡ (edited (length sheet.old - 16) (world_of desk.old.session.now (T.LineStore.meaning desk.old.text.now) (K.LineStore.meaning desk.old.keep.now) (S.Shelf.meaning shelf.now)) (name_view name.entry)).out ++ drop (length (edited (length sheet.old - 16) (world_of desk.old.session.now (T.LineStore.meaning desk.old.text.now) (K.LineStore.meaning desk.old.keep.now) (S.Shelf.meaning shelf.now)) (name_view name.entry)).out) sheet.old }
    ensures world { world_of desk.new.session.now (T.LineStore.meaning desk.new.text.now) (K.LineStore.meaning desk.new.keep.now) (S.Shelf.meaning shelf.now) ≡ (edited (length sheet.old - 16) (world_of desk.old.session.now (T.LineStore.meaning desk.old.text.now) (K.LineStore.meaning desk.old.keep.now) (S.Shelf.meaning shelf.now)) (name_view name.entry)).world }
    ensures text { (T.LineStore.meaning desk.new.text.now).capacity ≡ (T.LineStore.meaning desk.old.text.now).capacity }
    ensures keep { (K.LineStore.meaning desk.new.keep.now).capacity ≡ (K.LineStore.meaning desk.old.keep.now).capacity }
    ensures lent_session { desk.new.session.ghost_name ≡ desk.old.session.ghost_name }
    ensures lent_text { desk.new.text.ghost_name ≡ desk.old.text.ghost_name }
    ensures lent_keep { desk.new.keep.ghost_name ≡ desk.old.keep.ghost_name }
{
    check_saved(desk.session)?;
    match name {
        FileName::Given(name) => edit_named(desk, shelf, name, sheet),
        FileName::Remembered => {
            let label = desk.session.name.ok_or(Fault::NoName)?;
            edit_named(desk, shelf, label.text(), sheet)
        }
    }
}

// The same, with the name known, and with nothing to be lost.
fn edit_named<T: LineStore, K: LineStore, S: Shelf>(
    desk: &mut Desk<'_, '_, '_, T, K>,
    shelf: &S,
    name: &[u8],
    sheet: &mut [u8],
) -> Result<usize, Fault>
    requires room { 16 ≤ length sheet.old }
    ensures value { fault_of result ≡ (read_named (length sheet.old - 16) (world_of desk.old.session.now (T.LineStore.meaning desk.old.text.now) (K.LineStore.meaning desk.old.keep.now) (S.Shelf.meaning shelf.now)) name.now).fault }
    ensures bytes { bytes_of result ≡ length (read_named (length sheet.old - 16) (world_of desk.old.session.now (T.LineStore.meaning desk.old.text.now) (K.LineStore.meaning desk.old.keep.now) (S.Shelf.meaning shelf.now)) name.now).out }
    ensures sheet { sheet.new ≡ (read_named (length sheet.old - 16) (world_of desk.old.session.now (T.LineStore.meaning desk.old.text.now) (K.LineStore.meaning desk.old.keep.now) (S.Shelf.meaning shelf.now)) name.now).out ++ drop (length (read_named (length sheet.old - 16) (world_of desk.old.session.now (T.LineStore.meaning desk.old.text.now) (K.LineStore.meaning desk.old.keep.now) (S.Shelf.meaning shelf.now)) name.now).out) sheet.old }
    ensures world { world_of desk.new.session.now (T.LineStore.meaning desk.new.text.now) (K.LineStore.meaning desk.new.keep.now) (S.Shelf.meaning shelf.now) ≡ (read_named (length sheet.old - 16) (world_of desk.old.session.now (T.LineStore.meaning desk.old.text.now) (K.LineStore.meaning desk.old.keep.now) (S.Shelf.meaning shelf.now)) name.now).world }
    ensures text { (T.LineStore.meaning desk.new.text.now).capacity ≡ (T.LineStore.meaning desk.old.text.now).capacity }
    ensures keep { (K.LineStore.meaning desk.new.keep.now).capacity ≡ (K.LineStore.meaning desk.old.keep.now).capacity }
    ensures lent_session { desk.new.session.ghost_name ≡ desk.old.session.ghost_name }
    ensures lent_text { desk.new.text.ghost_name ≡ desk.old.text.ghost_name }
    ensures lent_keep { desk.new.keep.ghost_name ≡ desk.old.keep.ghost_name }
{
    // Taken apart by `let .. else`, which the project asks for at a lookup.
    let Some(file) = shelf.lookup(name) else {
        return Err(Fault::FileNotFound);
    };
    let file = FileOf { shelf, file };
    let size = check_file(&file, desk.session.capacity, sheet.len() - HELD_BACK)?;
    read_in(desk, &file, name);
    print_number(size, sheet, 0);
    Ok(number_size(size))
}

// Checks that a file may be read into a text of this capacity, and that its size may be printed in this room; answers the size.
fn check_file<S: Shelf>(file: &FileOf<'_, S>, capacity: usize, room: usize) -> Result<usize, Fault>
    ensures { result ≡ readable capacity room (file_in (S.Shelf.meaning file.now.shelf.now) file.now.file) }
{
    let tally = tally_file(file);
    if tally.lines > capacity {
        return Err(Fault::TooManyLines);
    }
    if !tally.fits {
        return Err(Fault::LineTooLong);
    }
    let size = file.size();
    if number_size(size) > room {
        return Err(Fault::SheetFull);
    }
    Ok(size)
}

// Replaces the text by the lines of a file that was checked, and empties the keep. The name is remembered.
fn read_in<T: LineStore, K: LineStore, S: Shelf>(
    desk: &mut Desk<'_, '_, '_, T, K>,
    file: &FileOf<'_, S>,
    name: &[u8],
)
    requires fits { all_fit (split (file_in (S.Shelf.meaning file.now.shelf.now) file.now.file)) ≡ true }
    requires room { length (split (file_in (S.Shelf.meaning file.now.shelf.now) file.now.file)) ≤ (T.LineStore.meaning desk.old.text.now).capacity }
    requires label { is_label name.now ≡ true }
    ensures world { (h : Shelf) → world_of desk.new.session.now (T.LineStore.meaning desk.new.text.now) (K.LineStore.meaning desk.new.keep.now) h ≡ loaded (world_of desk.old.session.now (T.LineStore.meaning desk.old.text.now) (K.LineStore.meaning desk.old.keep.now) h) name.now (file_in (S.Shelf.meaning file.now.shelf.now) file.now.file) }
    ensures text { (T.LineStore.meaning desk.new.text.now).capacity ≡ (T.LineStore.meaning desk.old.text.now).capacity }
    ensures keep { (K.LineStore.meaning desk.new.keep.now).capacity ≡ (K.LineStore.meaning desk.old.keep.now).capacity }
    ensures lent_session { desk.new.session.ghost_name ≡ desk.old.session.ghost_name }
    ensures lent_text { desk.new.text.ghost_name ≡ desk.old.text.ghost_name }
    ensures lent_keep { desk.new.keep.ghost_name ≡ desk.old.keep.ghost_name }
{
    empty(desk.text);
    empty(desk.keep);
    load_file(file, desk.text);
    desk.session.current = desk.text.count();
    desk.session.kept_current = 0;
    desk.session.name = Label::new(name);
    desk.session.undoable = false;
    desk.session.unsaved = false;
}
