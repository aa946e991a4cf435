// Moving the gap of a store.
ghost use Rattle.std.specs.Prelude.{◌≡◌, ◌-◌, ◌≤◌, length};
ghost use Rattle.gap_store.specs.Meaning.{meaning_of};

use super::GapStore;
use crate::laying::slide;

impl GapStore {
    // Brings the gap behind line `at`. The lines stay as they are.
    pub(super) fn bring(&mut self, at: usize)
        requires { at ≤ length (meaning_of self.old).lines }
        ensures start { self.new.rows.start ≡ at }
        ensures width { self.new.rows.end - at ≡ self.old.rows.end - self.old.rows.start }
        ensures same { meaning_of self.new ≡ meaning_of self.old }
    {
        let offset = slide(&mut self.rows, &self.bytes, at);
        self.bytes.slide(offset);
    }
}
