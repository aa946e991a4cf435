// Starts that need not be tried.
ghost use Rattle.std.specs.Prelude.{◌≡◌, ℕ, ◌+◌, ◌<◌, ◌≤◌, Bool, map, length, None};
ghost use Rattle.matching.specs.Rows.{longest_end};
ghost use Rattle.patterns.specs.View.{item_of};

use crate::runs::{inside, outside};
use patterns::Item;

// A start behind one that does not fit, such that none between them fits either: what fits behind a byte that a starred first
// item takes also fits with that byte, and an unstarred one wants a byte of its set.
pub fn next_start(items: &[Item], line: &[u8], start: usize) -> usize
    requires { start ≤ length line.now }
    ensures forward { (start < result) × (result ≤ length line.now + 1) }
    ensures hopeless { (back : Bool) → longest_end (map item_of items.now) back line.now start ≡ None → (s : ℕ) → start ≤ s → s < result → longest_end (map item_of items.now) back line.now s ≡ None }
{
    if start == line.len() {
        return start + 1;
    }
    let [first, ..] = items else {
        return start + 1;
    };
    if first.starred {
        start + 1 + inside(&first.set, &line[start..])
    } else {
        start + 1 + outside(&first.set, &line[start + 1..])
    }
}
