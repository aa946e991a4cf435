// A substitution with the pattern that its sought part spells.
ghost use Rattle.std.specs.Prelude.{◌≡◌, ◌≤◌, length, IfSome};
ghost use Rattle.std.proofs.Props.{props};
ghost use Rattle.command.specs.View.{sought_view};
ghost use Rattle.rules.specs.Patterns.{found};
ghost use Rattle.substituting.specs.Readings.{ReadFrom, searches_of};

use command::said::Substitution;
use lines::line::LineText;
use matching::{Match, find};
use patterns::Pattern;

#[derive(Drop)]
pub struct Rule<'a> {
    pub substitution: Substitution<'a>,
    // None where the sought part is no pattern: that matches nothing.
    pattern: Option<Pattern>,
    ghost read: { ReadFrom pattern substitution.sought } by { Prim.hlevel props },
}

impl<'a> Rule<'a> {
    // The rule of a substitution. Its pattern is read here, once for all lines.
    pub fn new(substitution: Substitution<'a>) -> Rule<'a>
        ensures { result.substitution ≡ substitution.entry }
    {
        let sought = substitution.sought;
        Rule {
            substitution,
            pattern: Pattern::read(sought.delimiter, sought.part).ok(),
        }
    }

    // How many searches it may take in a text of `size` bytes: one for the first match, and at most two more than that for all.
    pub fn searches(&self, size: usize) -> usize
        requires { size ≤ 255 }
        ensures { result ≡ searches_of self.now.substitution.all size }
    {
        if self.substitution.all { 2 + size } else { 1 }
    }

    // The match in a line at place `from` or behind it.
    pub fn search(&self, line: LineText<'_>, from: usize) -> Option<Match>
        ensures value { result ≡ found (sought_view self.now.substitution.sought) line.entry.bytes.now from }
        ensures within { IfSome result (λ m. (from ≤ m.start) × (m.start ≤ m.end) × (m.end ≤ length line.entry.bytes.now)) }
    {
        let pattern = self.pattern.as_ref()?;
        find(pattern, line.bytes, from).unwrap_or(None)
    }
}
