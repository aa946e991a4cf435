// Whether unsaved text may be given up.
ghost use Rattle.std.specs.Prelude.{◌≡◌, not, ◌||◌};
ghost use Rattle.command.specs.declared.fault.Fault.TheVariants as fault;
ghost use Rattle.rules.specs.Checks.{check};

use command::fault::Fault;
use state::session::Session;

// Refuses to give up unsaved text, unless the line before was refused for that.
pub(crate) fn check_saved(session: &Session) -> Result<(), Fault>
    ensures { result ≡ check (session.now.warned || not session.now.unsaved) fault.Unsaved }
{
    if session.unsaved && !session.warned {
        return Err(Fault::Unsaved);
    }
    Ok(())
}
