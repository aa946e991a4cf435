// Reading the name behind `e` or `w`.
ghost use Rattle.std.specs.Prelude.{◌≡◌};
ghost use Rattle.command.specs.View.{name_view};
ghost use Rattle.reading.specs.Names.{behind_spaces, name_of, name_at};
ghost use Rattle.reading.specs.Views.{seen};

use super::Reader;
use command::fault::Fault;
use command::said::FileName;
use shelf::name::is_name;

impl<'a> Reader<'a> {
    // The name, parted from the letter by a space at least, or the remembered one.
    #[tactic(auto, unfolding(crate::specs::Names::name_at))]
    pub(super) fn name(&self, has_name: bool) -> Result<FileName<'a>, Fault>
        ensures { seen name_view result ≡ name_at has_name self.now.rest.now }
    {
        match self.rest {
            [] => name_or_remembered(self.rest, has_name),
            [b' ', behind @ ..] => name_or_remembered(skip_spaces(behind), has_name),
            _ => Err(Fault::BadCommand),
        }
    }
}

fn skip_spaces(bytes: &[u8]) -> &[u8]
    ensures { result.now ≡ behind_spaces bytes.now }
{
    let mut rest = bytes;
    while let [b' ', behind @ ..] = rest {
        rest = behind;
    }
    rest
}

// All that is left of the line is the name. Nothing means the remembered one.
#[tactic(auto, unfolding(crate::specs::Names::name_of))]
fn name_or_remembered(bytes: &[u8], has_name: bool) -> Result<FileName<'_>, Fault>
    ensures { seen name_view result ≡ name_of has_name bytes.now }
{
    match bytes {
        [] if has_name => Ok(FileName::Remembered),
        [] => Err(Fault::NoName),
        _ if is_name(bytes) => Ok(FileName::Given(bytes)),
        _ => Err(Fault::BadName),
    }
}
