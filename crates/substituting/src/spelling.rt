// The lines that a text becomes by a rule, spelled out one after another.
ghost use Rattle.std.specs.Prelude.{◌≤◌, length, IfSome};
ghost use Rattle.std.proofs.Props.{props};
ghost use Rattle.substituting.specs.Places.{Placed};

use crate::cursor::{Cursor, Step, Token};
use crate::line::{Spelled, add, empty};
use crate::rule::Rule;
use lines::line::LineText;

// Those that are left, behind the place of a cursor.
#[derive(Drop)]
pub struct Spelling<'a> {
    pub rule: &'a Rule<'a>,
    pub text: LineText<'a>,
    // None behind the last line.
    pub cursor: Option<Cursor<'a>>,
    ghost placed: { IfSome cursor (Placed (length text.bytes.now)) } by { Prim.hlevel props },
}

impl<'a> Spelling<'a> {
    ghost use Rattle.std.specs.Prelude.{◌≡◌, true, false, [], ◌∷◌, map};
    ghost use Rattle.command.specs.View.{substitution_view};
    ghost use Rattle.rules.specs.Patterns.{substituted};
    ghost use Rattle.substituting.specs.Spelling.{line_of, lines_from, lines_left};
    ghost use Rattle.substituting.specs.Rest.{lines_of, rest_of};

    // All the lines that a line becomes.
    pub fn new(rule: &'a Rule<'a>, text: LineText<'a>) -> Spelling<'a>
        ensures { lines_of result ≡ substituted (substitution_view rule.now.substitution) text.entry.bytes.now }
    {
        Spelling {
            rule,
            text,
            cursor: Some(Cursor {
                bits: &[],
                run: &[],
                at: 0,
                from: 0,
                last: None,
                searches: rule.searches(text.bytes.len()),
            }),
        }
    }

    // Spells out the next line, if there is one, in place of what `line` was. An iterator would hand on each line with its bytes.
    // Inlined, as `spell` is: a call would copy the cursor in and out for every line.
    #[inline(always)]
    pub fn next_line(&mut self, line: &mut Spelled) -> bool
        ensures some { result ≡ true → rest_of self.old ≡ line.new ∷ rest_of self.new }
        ensures none { result ≡ false → (rest_of self.old ≡ []) × ((self.new ≡ self.old) × (line.new ≡ line.old)) }
    {
        let Some(from) = self.cursor else {
            return false;
        };
        self.cursor = self.spell(from, line);
        true
    }

    // Spells out the line at a place into `line`, and answers the place behind it.
    #[inline(always)]
    fn spell(&self, from: Cursor<'a>, line: &mut Spelled) -> Option<Cursor<'a>>
        requires placed { Placed (length self.now.text.bytes.now) from }
        ensures line { map line_of (lines_from (substitution_view self.now.rule.now.substitution) self.now.text.bytes.now from.entry) ≡ line.new ∷ map line_of (lines_left (substitution_view self.now.rule.now.substitution) self.now.text.bytes.now result) }
        ensures placed { IfSome result (Placed (length self.now.text.bytes.now)) }
    {
        empty(line);
        let mut here = from;
        loop {
            let Step { token, next } = self.step(here);
            match token {
                Token::Run(bytes) => add(line, bytes),
                Token::Byte(byte) => add(line, &[byte]),
                Token::Break => return next,
            }
            here = next?;
        }
    }
}
