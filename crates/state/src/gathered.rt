// The lines of a command that are joined so far.
ghost use Rattle.std.specs.Prelude.{◌≡◌, true, false, [], ◌∷◌, ◌++◌, length, MatchOption, nat_lt};
ghost use Rattle.short_text.specs.Held.{held};

use reading::line::GATHER_MAX;
use short_text::ShortText;

#[derive(Clone, Copy)]
pub struct Gathered {
    lines: ShortText<GATHER_MAX>,
}

impl Gathered {
    pub fn none() -> Gathered
        ensures { held result.lines ≡ [] }
    {
        Gathered {
            lines: ShortText::new(),
        }
    }

    pub fn text(&self) -> &[u8]
        ensures { result.now ≡ held self.now.lines }
    {
        self.lines.text()
    }

    // A line by itself, if it is not too long.
    pub fn of(line: &[u8]) -> Option<Gathered>
        ensures { MatchOption result (nat_lt 1000 (length line.now) ≡ true) (λ g. (nat_lt 1000 (length line.now) ≡ false) × (held g.lines ≡ line.now)) }
    {
        Some(Gathered {
            lines: ShortText::of(line)?,
        })
    }

    // With a line break and one line more, if that is not too long.
    pub fn joined(&self, line: &[u8]) -> Option<Gathered>
        ensures { MatchOption result (nat_lt 1000 (length (held self.now.lines ++ 10 ∷ line.now)) ≡ true) (λ g. (nat_lt 1000 (length (held self.now.lines ++ 10 ∷ line.now)) ≡ false) × (held g.lines ≡ held self.now.lines ++ 10 ∷ line.now)) }
    {
        Some(Gathered {
            lines: self.lines.with(b"\n")?.with(line)?,
        })
    }
}
