// The gap store: rows and bytes, each with a gap at the same line.
ghost use Rattle.std.specs.Prelude.{◌≡◌, ℕ, ◌*◌, ◌≤◌, true, length, take, drop};
ghost use Rattle.lines.specs.Line.{LineFits};
ghost use Rattle.lines.specs.Store.{line_at};
ghost use Rattle.gap_store.specs.Rows.{laid, gap_meaning};

use crate::gapped::Gapped;
use crate::row::Row;

mod changing;
mod creating;
mod finding;
mod interface;
mod moving;

// Lines in two parts: those in front of the gap lie back to back from the first byte on, those behind it up to
// the last. There is a row for each line of the capacity, and room for as many lines of full length.
#[derive(Drop)]
pub struct GapStore {
    rows: Gapped<Row>,
    bytes: Gapped<u8>,
    ghost some: { 1 ≤ length rows.all.items },
    ghost bounded: { length rows.all.items ≤ 4096 },
    ghost roomy: { length bytes.all.items ≡ 255 * length rows.all.items },
    ghost front: { laid 0 (take rows.start rows.all.items) bytes.start ≡ true },
    ghost behind: { laid bytes.end (drop rows.end rows.all.items) (length bytes.all.items) ≡ true },
    ghost each: { (n : ℕ) → LineFits (line_at (gap_meaning rows.all.items rows.start rows.end bytes.all.items bytes.start bytes.end) n) },
}
