// `q`
ghost use Rattle.std.specs.Prelude.{◌≡◌};
ghost use Rattle.lines.specs.Store.{Store};
ghost use Rattle.shelf.specs.Shelf.{Shelf};
ghost use Rattle.rules.specs.Commands.{quitted};
ghost use Rattle.state.specs.Worlds.{world_of};
ghost use Rattle.commanding.specs.Outcomes.{fault_of};

use crate::saving::check_saved;
use command::fault::Fault;
use state::mode::Mode;
use state::session::Session;

// Ends the session. Unsaved text is refused, unless the line before was refused for that.
pub fn quit(session: &mut Session) -> Result<(), Fault>
    ensures value { (t k : Store) (h : Shelf) → fault_of result ≡ (quitted (world_of session.old t k h)).fault }
    ensures world { (t k : Store) (h : Shelf) → world_of session.new t k h ≡ (quitted (world_of session.old t k h)).world }
{
    check_saved(session)?;
    session.mode = Mode::Ended;
    Ok(())
}
