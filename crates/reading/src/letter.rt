// The command letters.
ghost use Rattle.std.specs.Prelude.{◌≡◌};
ghost use Rattle.reading.specs.Commands.{rule_for};
ghost use Rattle.reading.specs.Views.{rights_of, rights_seen};

// Whether the list of a global may hold the command, and whether it takes addresses.
#[derive(Clone, Copy)]
pub(crate) struct Rights {
    pub listed: bool,
    pub addressed: bool,
}

// What a command may, by its letter.
#[tactic(auto, unfolding(crate::specs::Commands::rule_for))]
pub(crate) fn rights_of(letter: u8) -> Option<Rights>
    ensures { rights_seen result ≡ rights_of (rule_for letter) }
{
    match letter {
        b'd' | b'k' | b'm' | b'p' | b'=' | b's' | b'w' => Some(Rights {
            listed: true,
            addressed: true,
        }),
        b'a' | b'g' | b'v' => Some(Rights {
            listed: false,
            addressed: true,
        }),
        b'e' | b'q' | b'u' => Some(Rights {
            listed: false,
            addressed: false,
        }),
        _ => None,
    }
}
