// `a`, and the lines typed behind it.
ghost use Rattle.std.specs.Prelude.{◌≡◌, ◌<◌, ◌≤◌, true, false, [], ◌∷◌, length};
ghost use Rattle.std.specs.Str.{bytes_eq};
ghost use Rattle.lines.specs.Store.{Store};
ghost use Rattle.shelf.specs.Shelf.{Shelf};
ghost use Rattle.command.specs.View.{addresses_view};
ghost use Rattle.rules.specs.Commands.{appended};
ghost use Rattle.rules.specs.Doing.{kept_if};
ghost use Rattle.rules.specs.Giving.{typed, typed_in};
ghost use Rattle.rules.specs.Lines.{page, seen_lines, unchosen};
ghost use Rattle.rules.specs.World.{with_text};
ghost use Rattle.state.specs.Worlds.{world_of};
ghost use Rattle.commanding.specs.Outcomes.{fault_of};

use command::fault::Fault;
use command::said::Addresses;
use editing::keeping::fill_keep;
use editing::single::put_line;
use lines::line::{LineText, PLAIN};
use lines::store::LineStore;
use resolving::page::Page;
use state::desk::Desk;
use state::mode::Mode;
use state::session::Session;

// Makes a line current, and begins text mode: what is typed then goes in behind that line.
pub fn append<T: LineStore>(
    session: &mut Session,
    text: &T,
    addresses: Addresses<'_>,
) -> Result<(), Fault>
    requires { session.old.current ≤ length (T.LineStore.meaning text.now).lines }
    ensures value { (k : Store) (h : Shelf) → fault_of result ≡ (appended (world_of session.old (T.LineStore.meaning text.now) k h) (addresses_view addresses.entry)).fault }
    ensures world { (k : Store) (h : Shelf) → world_of session.new (T.LineStore.meaning text.now) k h ≡ (appended (world_of session.old (T.LineStore.meaning text.now) k h) (addresses_view addresses.entry)).world }
{
    let before = session.current;
    let page = Page {
        text,
        current: before,
    };
    session.current = page.line(addresses, before, true)?;
    session.mode = Mode::Typing { before, any: false };
    Ok(())
}

// Takes a line typed in text mode, which is not `.`: it goes in behind the current one and is current then. The first that
// goes in fills the keep, with the current line from before the `a`.
pub fn put_typed<T: LineStore, K: LineStore>(
    desk: &mut Desk<'_, '_, '_, T, K>,
    before: usize,
    any: bool,
    line: LineText<'_>,
) -> Result<(), Fault>
    requires { bytes_eq line.bytes.now (46 ∷ []) ≡ false }
    ensures value { (h : Shelf) → fault_of result ≡ (typed (world_of desk.old.session.now (T.LineStore.meaning desk.old.text.now) (K.LineStore.meaning desk.old.keep.now) h) before any line.entry.bytes.now).fault }
    ensures world { (h : Shelf) → world_of desk.new.session.now (T.LineStore.meaning desk.new.text.now) (K.LineStore.meaning desk.new.keep.now) h ≡ (typed (world_of desk.old.session.now (T.LineStore.meaning desk.old.text.now) (K.LineStore.meaning desk.old.keep.now) h) before any line.entry.bytes.now).world }
    ensures text { (T.LineStore.meaning desk.new.text.now).capacity ≡ (T.LineStore.meaning desk.old.text.now).capacity }
    ensures keep { (K.LineStore.meaning desk.new.keep.now).capacity ≡ (K.LineStore.meaning desk.old.keep.now).capacity }
    ensures lent_session { desk.new.session.ghost_name ≡ desk.old.session.ghost_name }
    ensures lent_text { desk.new.text.ghost_name ≡ desk.old.text.ghost_name }
    ensures lent_keep { desk.new.keep.ghost_name ≡ desk.old.keep.ghost_name }
{
    if desk.text.count() >= desk.session.capacity {
        return Err(Fault::TextFull);
    }
    if !any {
        keep_text(desk, before);
    }
    put_behind_current(desk, line);
    desk.session.unsaved = true;
    desk.session.mode = Mode::Typing { before, any: true };
    Ok(())
}

// Copies the text into the keep, with the current line from before the `a`.
fn keep_text<T: LineStore, K: LineStore>(desk: &mut Desk<'_, '_, '_, T, K>, before: usize)
    ensures world { (h : Shelf) → world_of desk.new.session.now (T.LineStore.meaning desk.new.text.now) (K.LineStore.meaning desk.new.keep.now) h ≡ kept_if true (page (unchosen (seen_lines (T.LineStore.meaning desk.old.text.now))) before) (world_of desk.old.session.now (T.LineStore.meaning desk.old.text.now) (K.LineStore.meaning desk.old.keep.now) h) }
    ensures current { desk.new.session.now.current ≡ desk.old.session.now.current }
    ensures text { T.LineStore.meaning desk.new.text.now ≡ T.LineStore.meaning desk.old.text.now }
    ensures keep { (K.LineStore.meaning desk.new.keep.now).capacity ≡ (K.LineStore.meaning desk.old.keep.now).capacity }
    ensures lent_session { desk.new.session.ghost_name ≡ desk.old.session.ghost_name }
    ensures lent_text { desk.new.text.ghost_name ≡ desk.old.text.ghost_name }
    ensures lent_keep { desk.new.keep.ghost_name ≡ desk.old.keep.ghost_name }
{
    fill_keep(desk.text, desk.keep);
    desk.session.kept_current = before;
    desk.session.undoable = true;
}

// Puts a line behind the current one, and makes it current.
fn put_behind_current<T: LineStore, K: LineStore>(
    desk: &mut Desk<'_, '_, '_, T, K>,
    line: LineText<'_>,
)
    requires { length (T.LineStore.meaning desk.old.text.now).lines < (T.LineStore.meaning desk.old.text.now).capacity }
    ensures world { (h : Shelf) → world_of desk.new.session.now (T.LineStore.meaning desk.new.text.now) (K.LineStore.meaning desk.new.keep.now) h ≡ with_text (typed_in (page (seen_lines (T.LineStore.meaning desk.old.text.now)) desk.old.session.now.current) line.entry.bytes.now) (world_of desk.old.session.now (T.LineStore.meaning desk.old.text.now) (K.LineStore.meaning desk.old.keep.now) h) }
    ensures text { (T.LineStore.meaning desk.new.text.now).capacity ≡ (T.LineStore.meaning desk.old.text.now).capacity }
    ensures keep { (K.LineStore.meaning desk.new.keep.now).capacity ≡ (K.LineStore.meaning desk.old.keep.now).capacity }
    ensures lent_session { desk.new.session.ghost_name ≡ desk.old.session.ghost_name }
    ensures lent_text { desk.new.text.ghost_name ≡ desk.old.text.ghost_name }
    ensures lent_keep { desk.new.keep.ghost_name ≡ desk.old.keep.ghost_name }
{
    put_line(desk.text, desk.session.current, line, PLAIN);
    desk.session.current += 1;
}
