// Finding the lines of a store.
ghost use Rattle.std.specs.Prelude.{◌≡◌, ◌<◌, ◌≤◌, false, length, MatchOption};
ghost use Rattle.lines.specs.Store.{present};
ghost use Rattle.gap_store.specs.Gaps.{place};
ghost use Rattle.gap_store.specs.Meaning.{meaning_of, Located};

use super::GapStore;
use crate::row::Row;
use lines::store::LineStore;

impl GapStore {
    // How many lines there are.
    #[tactic(auto, using(crate::specs::Stored::count_of), unfolding(crate::specs::Meaning::meaning_of))]
    pub(super) fn lines(&self) -> usize
        ensures { result ≡ length (meaning_of self.now).lines }
    {
        self.rows.count()
    }

    // How many lines there can be.
    #[tactic(auto, unfolding(crate::specs::Meaning::meaning_of))]
    pub(super) fn most_lines(&self) -> usize
        ensures { result ≡ (meaning_of self.now).capacity }
    {
        self.rows.all.len()
    }

    // The row of line `n`.
    pub(super) fn find(&self, n: usize) -> Option<Row>
        ensures { MatchOption result (present (meaning_of self.now) n ≡ false) (λ row. Located self.now n row) }
    {
        if n == 0 || n > self.count() {
            return None;
        }
        Some(self.rows.all[self.place_of(n)])
    }

    // The place of the row of line `n`, which there is.
    pub(super) fn place_of(&self, n: usize) -> usize
        requires { (1 ≤ n) × (n ≤ length (meaning_of self.now).lines) }
        ensures value { result ≡ place self.now.rows.start self.now.rows.end n }
        ensures within { result < length self.now.rows.all.items }
    {
        self.rows.place(n)
    }
}
