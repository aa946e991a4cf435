// Rows that lie back to back on either side of a gap, kept so where the gap moves.
ghost use Rattle.std.specs.Prelude.{◌≡◌, ℕ, ◌+◌, ◌-◌, ◌^◌, ◌<◌, ◌≤◌, true, length, take, drop, if◌then◌else◌, nat_lt, slice_index_or};
ghost use Rattle.gap_store.specs.Rows.{no_row, total, laid, relaid};
ghost use Rattle.gap_store.specs.Sliding.{Apart, Brought};

use crate::gapped::Gapped;
use crate::row::Row;

// Lays rows back to back from byte `start` on.
fn lay(rows: &mut [Row], start: usize)
    requires { start + total rows.old < 2 ^ 64 }
    ensures { rows.new ≡ relaid start rows.old }
{
    let mut at = start;
    for row in rows.iter_mut() {
        row.start = at;
        at += row.len as usize;
    }
}

// Moves the gap in the rows to `at`, and answers the place where the gap in their bytes is then to start.
pub fn slide(rows: &mut Gapped<Row>, bytes: &Gapped<u8>, at: usize) -> usize
    requires within { at ≤ rows.old.start + (length rows.old.all.items - rows.old.end) }
    requires apart { Apart rows.old bytes.now }
    ensures { Brought rows.old rows.new bytes.now at result }
{
    if at < rows.start {
        slide_down(rows, bytes, at)
    } else {
        slide_up(rows, bytes, at)
    }
}

// The gap moves down: the rows between are laid up to where those behind the gap start.
fn slide_down(rows: &mut Gapped<Row>, bytes: &Gapped<u8>, at: usize) -> usize
    requires within { at < rows.old.start }
    requires apart { Apart rows.old bytes.now }
    ensures { Brought rows.old rows.new bytes.now at result }
{
    let offset = rows.all[at].start;
    let from = at + (rows.end - rows.start);
    let to = rows.end;
    rows.slide(at);
    lay(&mut rows.all[from..to], offset + (bytes.end - bytes.start));
    offset
}

// The gap moves up: the rows between are laid from where those in front of the gap stop.
fn slide_up(rows: &mut Gapped<Row>, bytes: &Gapped<u8>, at: usize) -> usize
    requires within { (rows.old.start ≤ at) × (at ≤ rows.old.start + (length rows.old.all.items - rows.old.end)) }
    requires apart { Apart rows.old bytes.now }
    ensures { Brought rows.old rows.new bytes.now at result }
{
    let from = rows.start;
    let stop = start_of(&rows.all, rows.end + (at - from), bytes.all.len());
    rows.slide(at);
    lay(&mut rows.all[from..at], bytes.start);
    stop - (bytes.end - bytes.start)
}

// The place where the bytes of the row at `k` start, or `end` behind the last row.
fn start_of(rows: &[Row], k: usize, end: usize) -> usize
    ensures { result ≡ (if nat_lt k (length rows.now) then (slice_index_or rows.now k no_row).start else end) }
{
    rows.get(k).map_or(end, |row| row.start)
}
