// Changing the lines of a store at its gap, and a tag in its place.
ghost use Rattle.std.specs.Prelude.{◌≡◌, ◌-◌, ◌^◌, ◌<◌, ◌≤◌, ◌++◌, length, take, drop, set};
ghost use Rattle.lines.specs.Line.{LineFits};
ghost use Rattle.lines.specs.Store.{line_at, with_lines, inserted};
ghost use Rattle.gap_store.specs.Meaning.{meaning_of};

use super::GapStore;
use crate::row::Row;
use lines::line::Tag;

impl GapStore {
    // Puts a line in at the gap, in front of it.
    pub(super) fn put_at_gap(&mut self, text: &[u8], tag: Tag)
        requires free { length (meaning_of self.old).lines < (meaning_of self.old).capacity }
        requires fits { LineFits (record { text = text.now; tag = tag }) }
        ensures { meaning_of self.new ≡ with_lines (meaning_of self.old) (inserted (meaning_of self.old).lines self.old.rows.start (record { text = text.now; tag = tag })) }
    {
        let row = Row {
            start: self.bytes.start,
            len: text.len() as u8,
            tag,
        };
        self.rows.put(&[row]);
        self.bytes.put(text);
    }

    // Removes the line in front of the gap: its row and its bytes become part of the gap.
    pub(super) fn remove_at_gap(&mut self)
        requires { 1 ≤ self.old.rows.start }
        ensures { meaning_of self.new ≡ with_lines (meaning_of self.old) (take (self.old.rows.start - 1) (meaning_of self.old).lines ++ drop self.old.rows.start (meaning_of self.old).lines) }
    {
        let at = self.rows.start - 1;
        let row = self.rows.all[at];
        self.rows.take_out(at);
        self.bytes.take_out(row.start);
    }

    // Gives line `n` another tag.
    pub(super) fn retag(&mut self, n: usize, tag: Tag)
        requires { (1 ≤ n) × ((n ≤ length (meaning_of self.old).lines) × (tag < 2 ^ 27)) }
        ensures { meaning_of self.new ≡ with_lines (meaning_of self.old) (set (meaning_of self.old).lines (n - 1) (record { text = (line_at (meaning_of self.old) n).text; tag = tag })) }
    {
        let i = self.place_of(n);
        let row = self.rows.all[i];
        self.rows.write(i, Row { tag, ..row });
    }
}
