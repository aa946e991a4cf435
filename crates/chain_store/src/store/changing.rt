// The changes to a store, where nothing is refused any more.
ghost use Rattle.std.specs.Prelude.{◌≡◌, ◌-◌, ◌^◌, ◌<◌, ◌≤◌, ◌++◌, length, take, drop, set};
ghost use Rattle.lines.specs.Line.{LineFits};
ghost use Rattle.lines.specs.Store.{with_lines, inserted, line_at};
ghost use Rattle.chain_store.specs.Meaning.{meaning_of};

use super::{ANCHORS, ChainStore, FREE};
use crate::links::relink;
use lines::line::Tag;

impl ChainStore {
    // Puts a line into the first free slot, and the slot's number behind that of line `behind`.
    pub(super) fn put_line(&mut self, behind: usize, text: &[u8], tag: Tag)
        requires place { behind ≤ length (meaning_of self.old).lines }
        requires room { length (meaning_of self.old).lines < (meaning_of self.old).capacity }
        requires line { LineFits (record { text = text.now; tag = tag }) }
        ensures { meaning_of self.new ≡ with_lines (meaning_of self.old) (inserted (meaning_of self.old).lines behind (record { text = text.now; tag = tag })) }
    {
        let place = self.number_at(behind);
        let free = self.links[FREE] as usize - ANCHORS;
        self.slots[free].fill(text, tag);
        relink(&mut self.links, FREE, place);
        self.count += 1;
    }

    // Takes line `n` out of the lines. Its slot is the first free one from now on.
    pub(super) fn remove_line(&mut self, n: usize)
        requires { (1 ≤ n) × (n ≤ length (meaning_of self.old).lines) }
        ensures { meaning_of self.new ≡ with_lines (meaning_of self.old) (take (n - 1) (meaning_of self.old).lines ++ drop n (meaning_of self.old).lines) }
    {
        let place = self.number_at(n - 1);
        relink(&mut self.links, place, FREE);
        self.count -= 1;
    }

    // Sets the tag of line `n`.
    pub(super) fn tag_line(&mut self, n: usize, tag: Tag)
        requires { (1 ≤ n) × ((n ≤ length (meaning_of self.old).lines) × (tag < 2 ^ 27)) }
        ensures { meaning_of self.new ≡ with_lines (meaning_of self.old) (set (meaning_of self.old).lines (n - 1) (record { text = (line_at (meaning_of self.old) n).text; tag = tag })) }
    {
        let i = self.find(n);
        self.slots[i].tag = tag;
    }
}
