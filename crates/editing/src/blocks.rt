// Edits of ranges of lines: deleted, moved, or all of a text's lines taken away.
ghost use Rattle.std.specs.Prelude.{◌≡◌, suc, ◌-◌, ◌<◌, ◌≤◌, min, true, ◌||◌, ◌++◌, length, take, nat_lt};
ghost use Rattle.ranges.specs.Spans.{span_of};
ghost use Rattle.rules.specs.Lines.{seen_lines, created};
ghost use Rattle.rules.specs.Pieces.{stay, placed};
ghost use Rattle.editing.specs.Shapes.{without, emptied, with_swapped, moved_pieces};

use crate::single::{shift_line, take_line};
use lines::store::LineStore;
use ranges::range::Range;

// Takes the lines of a range away.
pub fn delete_range<T: LineStore>(text: &mut T, range: Range)
    requires { range.count ≡ length (T.LineStore.meaning text.old).lines }
    ensures store { T.LineStore.meaning text.new ≡ without (T.LineStore.meaning text.old) range.first range.last }
    ensures lines { seen_lines (T.LineStore.meaning text.new) ≡ placed created (seen_lines (T.LineStore.meaning text.old)) (stay 1 (range.first - 1) ++ stay (suc range.last) (length (seen_lines (T.LineStore.meaning text.old)))) }
    ensures capacity { (T.LineStore.meaning text.new).capacity ≡ (T.LineStore.meaning text.old).capacity }
    ensures front { take (range.first - 1) (seen_lines (T.LineStore.meaning text.new)) ≡ take (range.first - 1) (seen_lines (T.LineStore.meaning text.old)) }
{
    take_lines(text, range.first, range.last);
}

// Takes the lines from `first` to `last` away: each time the line that then has the first one's number.
fn take_lines<T: LineStore>(text: &mut T, first: usize, last: usize)
    requires some { 1 ≤ first }
    requires order { first ≤ last }
    requires within { last ≤ length (T.LineStore.meaning text.old).lines }
    ensures { T.LineStore.meaning text.new ≡ without (T.LineStore.meaning text.old) first last }
{
    for _ in first - 1..last {
        take_line(text, first);
    }
}

// Takes every line away, from the last to the first: a store with a gap then moves no line.
pub fn empty<T: LineStore>(text: &mut T)
    ensures { T.LineStore.meaning text.new ≡ emptied (T.LineStore.meaning text.old) }
{
    for i in (0..text.count()).rev() {
        take_line(text, i + 1);
    }
}

// Moves the lines of a range behind line `behind`, which is not one of them.
pub fn move_range<T: LineStore>(text: &mut T, range: Range, behind: usize)
    requires count { range.count ≡ length (T.LineStore.meaning text.old).lines }
    requires target { behind ≤ range.count }
    requires outside { (nat_lt behind range.first || nat_lt range.last behind) ≡ true }
    ensures lines { seen_lines (T.LineStore.meaning text.new) ≡ placed created (seen_lines (T.LineStore.meaning text.old)) (moved_pieces (length (seen_lines (T.LineStore.meaning text.old))) (span_of range) behind) }
    ensures capacity { (T.LineStore.meaning text.new).capacity ≡ (T.LineStore.meaning text.old).capacity }
    ensures front { take (min behind (range.first - 1)) (seen_lines (T.LineStore.meaning text.new)) ≡ take (min behind (range.first - 1)) (seen_lines (T.LineStore.meaning text.old)) }
{
    if behind < range.first {
        raise_range(text, range, behind);
    } else {
        lower_range(text, range, behind);
    }
}

// Moves the lines of a range towards the front, line by line: the first goes behind line `behind`, the next behind it.
fn raise_range<T: LineStore>(text: &mut T, range: Range, behind: usize)
    requires count { range.count ≡ length (T.LineStore.meaning text.old).lines }
    requires before { behind < range.first }
    ensures { T.LineStore.meaning text.new ≡ with_swapped (T.LineStore.meaning text.old) behind (range.first - 1) range.last }
{
    let start = range.first - 1;
    for i in start..range.last {
        shift_line(text, i + 1, behind + (i - start));
    }
}

// Moves the lines of a range towards the end, line by line: the first is taken out, and with it line `behind` moves up by one.
fn lower_range<T: LineStore>(text: &mut T, range: Range, behind: usize)
    requires count { range.count ≡ length (T.LineStore.meaning text.old).lines }
    requires target { behind ≤ range.count }
    requires past { range.last < behind }
    ensures { T.LineStore.meaning text.new ≡ with_swapped (T.LineStore.meaning text.old) (range.first - 1) range.last behind }
{
    for _ in range.first - 1..range.last {
        shift_line(text, range.first, behind - 1);
    }
}
