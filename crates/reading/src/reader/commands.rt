// Reading the command behind the addresses. It is all that is left of the line.
ghost use Rattle.std.specs.Prelude.{◌≡◌};
ghost use Rattle.command.specs.View.{command_view};
ghost use Rattle.reading.specs.Commands.{command_at, alone, marking, moving, flags_of, substituting, rule_for};
ghost use Rattle.reading.specs.Views.{seen, operands_by, setting_view};

use super::Reader;
use crate::letter::rights_of;
use crate::setting::Setting;
use command::fault::Fault;
use command::said::{Action, Chooser, Command, Substitution};

impl<'a> Reader<'a> {
    // A letter, and what it wants behind it. No letter is the empty command.
    #[tactic(auto, unfolding(crate::specs::Commands::command_at))]
    pub(crate) fn command(
        &mut self,
        setting: Setting,
        addressed: bool,
    ) -> Result<Command<'a>, Fault>
        ensures { seen command_view result ≡ command_at (setting_view setting) addressed self.old.rest.now }
    {
        let [letter, behind @ ..] = self.rest else {
            return Ok(Command::Act(Action::PrintNext));
        };
        let rights = rights_of(*letter).ok_or(Fault::BadCommand)?;
        if setting.in_list && !rights.listed {
            return Err(Fault::NotInList);
        }
        if addressed && !rights.addressed {
            return Err(Fault::UnwantedAddress);
        }
        self.rest = behind;
        self.operands(*letter, setting.has_name)
    }

    // What the letter wants behind it.
    #[tactic(auto, unfolding(crate::specs::Commands::rule_for, crate::specs::Commands::editing, crate::specs::Commands::writing, crate::specs::Commands::choosing))]
    fn operands(&mut self, letter: u8, has_name: bool) -> Result<Command<'a>, Fault>
        ensures { seen command_view result ≡ operands_by has_name self.old.rest.now (rule_for letter) }
    {
        match letter {
            b'a' => self.alone(Command::AppendText),
            b'd' => self.alone(Command::Act(Action::DeleteLines)),
            b'k' => self.marking(),
            b'm' => self.moving(),
            b'p' => self.alone(Command::Act(Action::PrintLines)),
            b'=' => self.alone(Command::Act(Action::PrintNumber)),
            b's' => self.substituting(),
            b'e' => Ok(Command::EditFile(self.name(has_name)?)),
            b'w' => Ok(Command::Act(Action::WriteFile(self.name(has_name)?))),
            b'q' => self.alone(Command::QuitSession),
            b'u' => self.alone(Command::UndoChange),
            b'g' => Ok(Command::Global(Chooser::Matching(self.sought()?), self.rest)),
            b'v' => Ok(Command::Global(Chooser::Lacking(self.sought()?), self.rest)),
            _ => Err(Fault::BadCommand),
        }
    }

    // A command with nothing behind it.
    #[tactic(auto, unfolding(crate::specs::Commands::alone))]
    fn alone(&self, command: Command<'a>) -> Result<Command<'a>, Fault>
        ensures { seen command_view result ≡ alone (command_view command.entry) self.now.rest.now }
    {
        match self.rest {
            [] => Ok(command),
            _ => Err(Fault::BadCommand),
        }
    }

    // `k`: a letter and nothing else.
    #[tactic(auto, unfolding(crate::specs::Commands::marking))]
    fn marking(&mut self) -> Result<Command<'a>, Fault>
        ensures { seen command_view result ≡ marking self.old.rest.now }
    {
        let mark = self.mark()?;
        self.alone(Command::Act(Action::MarkLine(mark)))
    }

    // `m`: one address and nothing else.
    #[tactic(auto, unfolding(crate::specs::Commands::moving))]
    fn moving(&mut self) -> Result<Command<'a>, Fault>
        ensures { seen command_view result ≡ moving self.old.rest.now }
    {
        let destination = self.address()?;
        self.alone(Command::Act(Action::MoveLines(destination)))
    }

    // The flags of `s`: whether all matches are meant, and whether to print. They go straight into the substitution, so a
    // struct of their own would be no plainer.
    #[tactic(auto, unfolding(crate::specs::Commands::flags_of))]
    fn flags(&self) -> Result<(bool, bool), Fault>
        ensures { result ≡ flags_of self.now.rest.now }
    {
        match self.rest {
            [] => Ok((false, false)),
            [b'g'] => Ok((true, false)),
            [b'p'] => Ok((false, true)),
            [b'g', b'p'] => Ok((true, true)),
            _ => Err(Fault::BadCommand),
        }
    }

    // `s`: a pattern, a replacement and flags.
    #[tactic(auto, unfolding(crate::specs::Commands::substituting))]
    fn substituting(&mut self) -> Result<Command<'a>, Fault>
        ensures { seen command_view result ≡ substituting self.old.rest.now }
    {
        let sought = self.sought()?;
        let replacement = self.part(sought.delimiter)?;
        let (all, print) = self.flags()?;
        Ok(Command::Act(Action::Substitute(Substitution {
            sought,
            replacement,
            all,
            print,
        })))
    }
}
