// Lines looked up by a pattern.
ghost use Rattle.std.specs.Prelude.{◌≡◌, suc, ◌<◌, ◌≤◌, length, take, drop, IfSome};
ghost use Rattle.lines.specs.Store.{line_at};
ghost use Rattle.patterns.specs.View.{meaning as pattern_meaning};
ghost use Rattle.rules.specs.Addresses.{next_match, slashed};
ghost use Rattle.rules.specs.Lines.{page, seen, seen_lines, first_where};
ghost use Rattle.resolving.specs.Lookup.{fits};

use crate::page::Page;
use lines::line::LINE_MAX;
use lines::line_of::LineOf;
use lines::store::LineStore;
use matching::find;
use patterns::Pattern;

// Whether a line has a match.
pub fn line_matches<T: LineStore>(line: &LineOf<'_, T>, pattern: &Pattern) -> bool
    ensures { result ≡ fits (pattern_meaning pattern.now) (seen (line_at (T.LineStore.meaning line.now.store.now) line.now.n)) }
{
    let mut buffer = [0; LINE_MAX];
    let text = line.read(&mut buffer);
    matches!(find(pattern, text.bytes, 0), Ok(Some(_)))
}

// The first line behind line `from`, up to line `to`, that has a match.
pub fn find_match<T: LineStore>(
    text: &T,
    pattern: &Pattern,
    from: usize,
    to: usize,
) -> Option<usize>
    requires { to ≤ length (T.LineStore.meaning text.now).lines }
    ensures value { result ≡ first_where (fits (pattern_meaning pattern.now)) (suc from) (drop from (take to (seen_lines (T.LineStore.meaning text.now)))) }
    ensures within { IfSome result (λ n. n ≤ to) }
{
    (from..to)
        .find(
            |i: &usize| -> bool
                requires { i.now < length (T.LineStore.meaning text.now).lines }
            {
                line_matches(
                    &LineOf {
                        store: text,
                        n: *i + 1,
                    },
                    pattern,
                )
            },
        )
        .map(|i| i + 1)
}

impl<'a, T: LineStore> Page<'a, T> {
    // The next line that matches a pattern between two `/`: behind the current one, then round from the first, the current one last.
    pub fn next_match(&self, part: &[u8]) -> Option<usize>
        ensures value { result ≡ next_match (page (seen_lines (T.LineStore.meaning self.now.text.now)) self.now.current) (slashed part.now) }
        ensures within { IfSome result (λ n. n ≤ length (T.LineStore.meaning self.now.text.now).lines) }
    {
        // A part that is no pattern matches nothing; its fault goes no further, so this is no `?`.
        let Ok(pattern) = Pattern::read(b'/', part) else {
            return None;
        };
        // `or_else` was tried: of its closure, which calls a generic function, the check learns nothing.
        match find_match(self.text, &pattern, self.current, self.text.count()) {
            Some(n) => Some(n),
            None => find_match(self.text, &pattern, 0, self.current),
        }
    }
}
