// The places that one item more reaches, as flags in a row.
ghost use Rattle.std.specs.Prelude.{◌≡◌, ℕ, ◌+◌, ◌-◌, ◌^◌, ◌<◌, ◌≤◌, true, false, ◌&&◌, length, IfSome, MatchOption, ◌==◌};
ghost use Rattle.matching.specs.Rows.{reached, byte_in, taken, Spans, NoneReached};
ghost use Rattle.patterns.specs.View.{members, item_of};

use super::Reach;
use crate::runs::inside;
use patterns::{ByteSet, Item};

fn byte_in(set: &ByteSet, line: &[u8], place: usize) -> bool
    ensures { result ≡ byte_in (members set.now) line.now place }
{
    place < line.len() && set.has(line[place])
}

// What is reached with a place that lies behind all that was.
fn extended(next: Option<Reach>, place: usize) -> Reach
    requires behind { IfSome next (λ r. r.end ≤ place) }
    requires fits { place < 2 ^ 63 }
    ensures { MatchOption next ((result.low ≡ place) × (result.end ≡ place + 1) × (result.count ≡ 1)) (λ r. (result.low ≡ r.low) × (result.end ≡ place + 1) × (result.count ≡ r.count + 1)) }
{
    match next {
        None => Reach::at(place),
        Some(reach) => reach.with(place),
    }
}

// Takes one item more: marks in the row the places that are reached now, and answers which they are, if any.
pub fn advance(row: &mut [bool], reach: Reach, item: &Item, line: &[u8]) -> Option<Reach>
    requires spans { Spans row.old reach }
    requires within { reach.end ≤ length line.now + 1 }
    requires long { length line.now < length row.old }
    ensures after { (p : ℕ) → reached row.new p ≡ taken (item_of item.now) line.now row.old p }
    ensures spans { MatchOption result (NoneReached row.new) (λ r. Spans row.new r) }
    ensures within { IfSome result (λ r. r.end ≤ length line.now + 1) }
{
    if item.starred && reach.is_solid() {
        return Some(run_on(row, reach, &item.set, line));
    }
    let mut next = None;
    let mut place = reach.low;
    let mut led = false;
    // The places are no range: whether one more has its turn, the one in front of it says.
    while place < reach.end || led {
        let before = row[place];
        let here = led | (item.starred & before);
        row[place] = here;
        if here {
            next = Some(extended(next, place));
        }
        led = ((item.starred & led) | before) & byte_in(&item.set, line, place);
        place += 1;
    }
    next
}

// A starred item leaves all that is reached. Where that is solid, it also reaches the places along a run of its bytes behind it.
fn run_on(row: &mut [bool], reach: Reach, set: &ByteSet, line: &[u8]) -> Reach
    requires spans { Spans row.old reach }
    requires solid { reach.low + reach.count ≡ reach.end }
    requires within { reach.end ≤ length line.now + 1 }
    requires long { length line.now < length row.old }
    ensures after { (p : ℕ) → reached row.new p ≡ taken (record { set = members set.now; starred = true }) line.now row.old p }
    ensures spans { Spans row.new result }
    ensures within { result.end ≤ length line.now + 1 }
{
    let more = inside(set, &line[reach.end - 1..]);
    let next = reach.with_run(more);
    row[reach.end..next.end].fill(true);
    next
}

// Takes back all that is reached.
pub fn clear(row: &mut [bool], reach: Reach)
    requires spans { Spans row.old reach }
    requires within { reach.end ≤ length row.old }
    ensures { NoneReached row.new }
{
    row[reach.low..reach.end].fill(false);
}
