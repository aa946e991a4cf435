// Finding the number and the slot of a line.
ghost use Rattle.std.specs.Prelude.{◌≡◌, ◌<◌, ◌≤◌, length, slice_index};
ghost use Rattle.std.specs.Option.{option_map};
ghost use Rattle.chain_store.specs.Chain.{chain};
ghost use Rattle.chain_store.specs.Meaning.{meaning_of, line_if, Found};
ghost use Rattle.chain_store.specs.Slot.{line_of};

use super::{ANCHORS, ChainStore};
use crate::links::walk;
use crate::slot::Slot;
use lines::store::LineStore;

impl ChainStore {
    // The number of line `n`, or the number in front of all lines where `n` is 0.
    pub(super) fn number_at(&self, n: usize) -> usize
        requires { n ≤ length (meaning_of self.now).lines }
        ensures value { result ≡ slice_index (chain self.now.links.items) n }
        ensures bound { result < length self.now.links.items }
    {
        walk(&self.links, n)
    }

    // The place of the slot of line `n`.
    pub(super) fn find(&self, n: usize) -> usize
        requires { (1 ≤ n) × (n ≤ length (meaning_of self.now).lines) }
        ensures { Found self.now n result }
    {
        self.number_at(n) - ANCHORS
    }

    // The slot of line `n`, if there is such a line.
    pub(super) fn slot(&self, n: usize) -> Option<&Slot>
        ensures { option_map (λ s. line_of s.now) result ≡ line_if (meaning_of self.now) n }
    {
        if n == 0 || n > self.count() {
            return None;
        }
        Some(&self.slots[self.find(n)])
    }
}
