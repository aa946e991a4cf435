// Hits: the lines that match.
ghost use Rattle.std.specs.Prelude.{◌≡◌, is_some, IfSome};
ghost use Rattle.lines.specs.Store.{line_at};
ghost use Rattle.command.specs.View.{sought_view};
ghost use Rattle.rules.specs.Patterns.{matches};

use crate::rule::Rule;
use lines::line::{LINE_MAX, LineText};
use lines::line_of::LineOf;
use lines::store::LineStore;

impl Rule<'_> {
    // The text of a line, copied to a buffer, if it is a hit.
    pub fn hit<'b, T: LineStore>(
        &self,
        line: &LineOf<'_, T>,
        buffer: &'b mut [u8; LINE_MAX],
    ) -> Option<LineText<'b>>
        ensures hit { is_some result ≡ matches (sought_view self.now.substitution.sought) (line_at (T.LineStore.meaning line.now.store.now) line.now.n).text }
        ensures line { IfSome result (λ text. text.bytes.now ≡ (line_at (T.LineStore.meaning line.now.store.now) line.now.n).text) }
    {
        let text = line.read(buffer);
        self.search(text, 0)?;
        Some(text)
    }
}
