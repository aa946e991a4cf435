// A step through the lines that a text becomes.
ghost use Rattle.std.specs.Prelude.{◌≡◌, ◌≤◌, [], length};
ghost use Rattle.command.specs.Replacements.{bits_of};
ghost use Rattle.command.specs.View.{substitution_view, sought_view};
ghost use Rattle.substituting.specs.Places.{Placed};
ghost use Rattle.substituting.specs.Spelling.{Stepped, Behind, Found, token_of, empty_after, passing};

use crate::cursor::{Cursor, Step, Token};
use crate::spelling::Spelling;
use command::replacement::{Bit, next_bit};
use matching::Match;

impl<'a> Spelling<'a> {
    // The next token, and the place behind it.
    // Each step asks that its cursor lies in the text: a ghost field of Cursor, which would say so too, rules out `..cursor`.
    pub fn step(&self, cursor: Cursor<'a>) -> Step<'a>
        requires placed { Placed (length self.now.text.bytes.now) cursor }
        ensures { Stepped (substitution_view self.now.rule.now.substitution) self.now.text.bytes.now cursor.entry result }
    {
        match next_bit(cursor.bits) {
            Some((bit, bits)) => Step {
                token: token_of(bit, cursor.run),
                next: Some(Cursor { bits, ..cursor }),
            },
            None => self.seek(cursor),
        }
    }

    // The next token where no replacement is being filled in: the text up to the next match, or to its end.
    fn seek(&self, cursor: Cursor<'a>) -> Step<'a>
        requires placed { Placed (length self.now.text.bytes.now) cursor }
        requires filled { bits_of cursor.bits.now ≡ [] }
        ensures { Stepped (substitution_view self.now.rule.now.substitution) self.now.text.bytes.now cursor.entry result }
    {
        let at = cursor.at;
        let Some(run) = self.next_match(cursor) else {
            return Step {
                token: Token::Run(&self.text.bytes[at..]),
                next: None,
            };
        };
        if is_empty_again(cursor.last, run) {
            return Step {
                token: Token::Run(&[]),
                next: Some(pass(cursor, run)),
            };
        }
        let start = run.start;
        Step {
            token: Token::Run(&self.text.bytes[at..start]),
            next: Some(self.replace(cursor, run)),
        }
    }

    // The next match, if one more may be sought and there is one.
    fn next_match(&self, cursor: Cursor<'a>) -> Option<Match>
        ensures { Found (sought_view self.now.rule.now.substitution.sought) self.now.text.bytes.now cursor.entry result }
    {
        if cursor.searches == 0 {
            return None;
        }
        self.rule.search(self.text, cursor.from)
    }

    // Behind a match that counts, with its replacement to be filled in. Behind an empty one the search goes on a byte later.
    fn replace(&self, cursor: Cursor<'a>, run: Match) -> Cursor<'a>
        requires some { 1 ≤ cursor.searches }
        requires order { run.start ≤ run.end }
        requires inside { run.end ≤ length self.now.text.bytes.now }
        ensures { Behind (substitution_view self.now.rule.now.substitution) self.now.text.bytes.now cursor.entry run result }
    {
        let rule = self.rule;
        let Match { start, end } = run;
        Cursor {
            bits: rule.substitution.replacement,
            run: &self.text.bytes[start..end],
            at: end,
            from: if start == end { start + 1 } else { end },
            last: Some(end),
            searches: cursor.searches - 1,
        }
    }
}

// A bit of the replacement of a match.
fn token_of<'a>(bit: Bit, run: &'a [u8]) -> Token<'a>
    ensures { result ≡ token_of bit run.entry }
{
    match bit {
        Bit::TheMatch => Token::Run(run),
        Bit::TheByte(byte) => Token::Byte(byte),
        Bit::TheBreak => Token::Break,
    }
}

// Whether a match is empty and at the end of the last one: then it does not count.
fn is_empty_again(last: Option<usize>, run: Match) -> bool
    ensures { result ≡ empty_after last run }
{
    last.is_some_and(|end| run.start == run.end && end == run.start)
}

// Behind a match that does not count: the search goes on a byte later.
fn pass(cursor: Cursor<'_>, run: Match) -> Cursor<'_>
    requires some { 1 ≤ cursor.searches }
    requires inside { run.start ≤ 255 }
    ensures { result ≡ passing cursor.entry run }
{
    Cursor {
        from: run.start + 1,
        last: Some(run.start),
        searches: cursor.searches - 1,
        ..cursor
    }
}
