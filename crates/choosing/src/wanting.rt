// What a global wants chosen: the lines of its range that its chooser holds of.
ghost use Rattle.std.specs.Prelude.{◌≡◌, ◌≤◌, ◌&&◌, nat_le};
ghost use Rattle.lines.specs.Store.{line_at};
ghost use Rattle.patterns.specs.View.{viewed};
ghost use Rattle.command.specs.View.{chooser_view, sought_view};
ghost use Rattle.ranges.specs.Spans.{span_or};
ghost use Rattle.rules.specs.Globals.{holds, wanted};
ghost use Rattle.rules.specs.Patterns.{found_in, is_there};
ghost use Rattle.choosing.specs.Sought.{sought_by, ReadFor};

use command::said::{Chooser, Sought};
use lines::line_of::LineOf;
use lines::store::LineStore;
use patterns::{Pattern, PatternFault};
use ranges::range::Range;
use resolving::lookup::line_matches;

// A substitution's rule also keeps what it seeks with the pattern read from it; a type for both would hold the part a second time.
// A range, a chooser and what reading the chooser's part gave, which is done once. A part that is no pattern matches nothing.
#[derive(Drop)]
pub struct Choice<'a> {
    range: Option<Range>,
    chooser: Chooser<'a>,
    reading: Result<Pattern, PatternFault>,
    ghost read: { ReadFor reading chooser },
}

impl<'a> Choice<'a> {
    pub fn new(range: Option<Range>, chooser: Chooser<'a>) -> Choice<'a>
        ensures range { result.range ≡ range }
        ensures chooser { chooser_view result.chooser ≡ chooser_view chooser.entry }
    {
        let sought = sought_by(chooser);
        Choice {
            range,
            chooser,
            reading: Pattern::read(sought.delimiter, sought.part),
        }
    }

    // Whether a line is to be chosen. One outside the range is not searched.
    pub fn wants<T: LineStore>(&self, line: &LineOf<'_, T>) -> bool
        ensures { result ≡ wanted (chooser_view self.now.chooser) (span_or self.now.range) line.now.n (line_at (T.LineStore.meaning line.now.store.now) line.now.n).text }
    {
        self.covers(line.n) && self.holds(line)
    }

    // Whether line `n` is in the range.
    fn covers(&self, n: usize) -> bool
        ensures { result ≡ nat_le (span_or self.now.range).first n && nat_le n (span_or self.now.range).final }
    {
        self.range
            .is_some_and(|range| range.first <= n && n <= range.last)
    }

    // Whether the chooser holds of a line.
    fn holds<T: LineStore>(&self, line: &LineOf<'_, T>) -> bool
        ensures { result ≡ holds (chooser_view self.now.chooser) (line_at (T.LineStore.meaning line.now.store.now) line.now.n).text }
    {
        match self.chooser {
            Chooser::Matching(_) => self.finds(line),
            Chooser::Lacking(_) => !self.finds(line),
        }
    }

    // Whether a line has a match.
    fn finds<T: LineStore>(&self, line: &LineOf<'_, T>) -> bool
        ensures { result ≡ is_there (found_in (line_at (T.LineStore.meaning line.now.store.now) line.now.n).text (viewed self.now.reading) 0) }
    {
        // `is_ok_and` was tried: of its closure, which calls a generic function, the check learns nothing.
        match &self.reading {
            Ok(pattern) => line_matches(line, pattern),
            Err(_) => false,
        }
    }
}

// What a chooser seeks in a line.
fn sought_by(chooser: Chooser<'_>) -> Sought<'_>
    ensures { sought_view result ≡ sought_by (chooser_view chooser.entry) }
{
    match chooser {
        Chooser::Matching(sought) | Chooser::Lacking(sought) => sought,
    }
}
