// The first start where a run of the line fits, and there the longest run.
ghost use Rattle.std.specs.Prelude.{◌≡◌, ◌<◌, ◌≤◌, map, length, IfSome, IfNone, IfOk, OnOk};
ghost use Rattle.matching.specs.Matching.{IsMatch, match_from, find_answer, MatchingRight, MatchingOne};
ghost use Rattle.matching.specs.Rows.{NoneReached, longest_end};
ghost use Rattle.patterns.specs.View.{item_of, meaning};

use crate::answer::{Match, MatchFault};
use crate::reach::{Reach, advance, clear};
use crate::start::next_start;
use patterns::{Item, Pattern};

// The bytes of the longest line that is searched. A row has a flag for each place, in front of, between and behind them.
const LINE_MAX: usize = 255;

const PLACES: usize = LINE_MAX + 1;

// The first longest match in the line at place `from` or behind it.
pub fn find(pattern: &Pattern, line: &[u8], from: usize) -> Result<Option<Match>, MatchFault>
    ensures value { result ≡ find_answer (meaning pattern.now) line.now from }
    ensures matched { IfOk result (λ m. IsMatch (meaning pattern.now) line.now from m) }
    ensures within { IfOk result (λ m. IfSome m (λ x. (from ≤ x.start) × (x.start ≤ x.end) × (x.end ≤ length line.now))) }
    ensures right { OnOk result (MatchingRight (meaning pattern.now) line.now from) }
    ensures one { OnOk result (MatchingOne (meaning pattern.now) line.now from) }
{
    if line.len() > LINE_MAX {
        return Err(MatchFault::LongLine);
    }
    let mut row = [false; PLACES];
    Ok(first_match(pattern, line, from, &mut row))
}

// The same with a row that is clear and long enough.
fn first_match(pattern: &Pattern, line: &[u8], from: usize, row: &mut [bool]) -> Option<Match>
    requires clear { NoneReached row.old }
    requires long { length line.now < length row.old }
    ensures value { result ≡ match_from (meaning pattern.now) line.now from }
    ensures matched { IsMatch (meaning pattern.now) line.now from result }
    ensures within { IfSome result (λ x. (from ≤ x.start) × (x.start ≤ x.end) × (x.end ≤ length line.now)) }
    ensures right { MatchingRight (meaning pattern.now) line.now from }
    ensures one { MatchingOne (meaning pattern.now) line.now from }
{
    let items = pattern.items();
    let back = pattern.has_end_anchor();
    let last = if pattern.has_front_anchor() {
        0
    } else {
        line.len()
    };
    let mut start = from;
    // The starts are no range: one at which nothing fits says which is tried next.
    while start <= last {
        if let Some(end) = longest_at(items, back, line, start, row) {
            return Some(Match { start, end });
        }
        start = next_start(items, line, start);
    }
    None
}

// Where the longest run from `start` ends that fits. The row is clear, and clear again if there is none.
fn longest_at(
    items: &[Item],
    back: bool,
    line: &[u8],
    start: usize,
    row: &mut [bool],
) -> Option<usize>
    requires inside { start ≤ length line.now }
    requires clear { NoneReached row.old }
    requires long { length line.now < length row.old }
    ensures value { result ≡ longest_end (map item_of items.now) back line.now start }
    ensures clear { IfNone result (NoneReached row.new) }
{
    row[start] = true;
    let mut reach = Reach::at(start);
    for item in items {
        reach = advance(row, reach, item, line)?;
    }
    if back && reach.end <= line.len() {
        clear(row, reach);
        return None;
    }
    Some(reach.end - 1)
}
