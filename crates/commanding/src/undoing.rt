// `u`
ghost use Rattle.std.specs.Prelude.{◌≡◌};
ghost use Rattle.shelf.specs.Shelf.{Shelf};
ghost use Rattle.rules.specs.Commands.{undone};
ghost use Rattle.state.specs.Worlds.{world_of};
ghost use Rattle.commanding.specs.Outcomes.{fault_of};

use command::fault::Fault;
use editing::keeping::exchange;
use lines::store::LineStore;
use state::session::Session;

// Exchanges text and keep, with their current lines; a second `u` takes the first one back.
pub fn undo<T: LineStore, K: LineStore>(
    session: &mut Session,
    text: &mut T,
    keep: &mut K,
) -> Result<(), Fault>
    requires { (T.LineStore.meaning text.old).capacity ≡ (K.LineStore.meaning keep.old).capacity }
    ensures value { (h : Shelf) → fault_of result ≡ (undone (world_of session.old (T.LineStore.meaning text.old) (K.LineStore.meaning keep.old) h)).fault }
    ensures world { (h : Shelf) → world_of session.new (T.LineStore.meaning text.new) (K.LineStore.meaning keep.new) h ≡ (undone (world_of session.old (T.LineStore.meaning text.old) (K.LineStore.meaning keep.old) h)).world }
    ensures text { (T.LineStore.meaning text.new).capacity ≡ (T.LineStore.meaning text.old).capacity }
    ensures keep { (K.LineStore.meaning keep.new).capacity ≡ (K.LineStore.meaning keep.old).capacity }
{
    if !session.undoable {
        return Err(Fault::NothingToUndo);
    }
    exchange(text, keep);
    let current = session.current;
    session.current = session.kept_current;
    session.kept_current = current;
    session.unsaved = true;
    Ok(())
}
