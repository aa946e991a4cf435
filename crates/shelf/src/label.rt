// A label: a name, or the front of names, held in place as 1 to 24 bytes.
ghost use Rattle.std.specs.Prelude.{◌≡◌, true, false, MatchOption};
ghost use Rattle.short_text.specs.Held.{held};
ghost use Rattle.shelf.specs.Label.{is_label};

use crate::name::NAME_MAX;
use short_text::ShortText;

#[derive(Clone, Copy)]
pub struct Label {
    short: ShortText<NAME_MAX>,
}

impl Label {
    // The label of these bytes, if there are 1 to 24 of them.
    pub fn new(text: &[u8]) -> Option<Label>
        ensures { MatchOption result (is_label text.now ≡ false) (λ l. (is_label text.now ≡ true) × (held l.short ≡ text.now)) }
    {
        if text.is_empty() {
            return None;
        }
        Some(Label {
            short: ShortText::of(text)?,
        })
    }

    pub fn text(&self) -> &[u8]
        ensures { result.now ≡ held self.now.short }
    {
        self.short.text()
    }
}
