// Marks: the letters that a line can bear.
ghost use Rattle.std.specs.Prelude.{◌≡◌, ◌<◌};
ghost use Rattle.std.specs.Option.{option_map};
ghost use Rattle.command.specs.Marks.{mark_of, bit_of};

// How many marks there are.
const MARKS: u8 = 26;

// A mark by its letter.
#[derive(Clone, Copy, PartialEq, Eq, Debug)]
pub struct Mark {
    letter: u8,
}

impl Mark {
    // The mark that a byte names. Nothing but `a` to `z` names one, and as that is the one cause, no error has a name to give.
    pub fn named(byte: u8) -> Option<Mark>
        ensures { option_map (λ m. m.letter) result ≡ mark_of byte }
    {
        match byte {
            b'a'..=b'z' => Some(Mark { letter: byte }),
            _ => None,
        }
    }

    // Its bit in a line's tag: 0 for `a` to 25 for `z`.
    pub fn bit(self) -> u8
        ensures value { result ≡ bit_of self.letter }
        ensures within { result < 26 }
    {
        self.letter.saturating_sub(b'a') % MARKS
    }
}
