// Reading a whole command line.
ghost use Rattle.std.specs.Prelude.{◌≡◌};
ghost use Rattle.command.specs.View.{addresses_view, said_view};
ghost use Rattle.reading.specs.Commands.{is_given, said};
ghost use Rattle.reading.specs.Views.{seen, setting_view};

use crate::reader::Reader;
use crate::setting::Setting;
use command::fault::Fault;
use command::said::{Addresses, Said};

// The longest command line, in bytes, however many lines it was gathered from.
pub const GATHER_MAX: usize = 1_000;

// What a command line says. A longer one is refused before anything of it is read.
#[tactic(auto, unfolding(crate::specs::Commands::said_in))]
pub fn read_command(line: &[u8], setting: Setting) -> Result<Said<'_>, Fault>
    ensures { seen said_view result ≡ said (setting_view setting) line.now }
{
    if line.len() > GATHER_MAX {
        return Err(Fault::CommandTooLong);
    }
    let mut reader = Reader::new(line);
    let addresses = reader.addresses()?;
    let command = reader.command(setting, are_given(addresses))?;
    Ok(Said { addresses, command })
}

fn are_given(addresses: Addresses<'_>) -> bool
    ensures { result ≡ is_given (addresses_view addresses.entry) }
{
    !matches!(addresses, Addresses::NoAddress)
}
