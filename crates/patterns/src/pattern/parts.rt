// The parts of a pattern.
ghost use Rattle.std.specs.Prelude.{◌≡◌, map};
ghost use Rattle.patterns.specs.View.{item_of, meaning};

use super::{Item, Pattern};

impl Pattern {
    // Whether a match has to start where the line does.
    pub fn has_front_anchor(&self) -> bool
        ensures { result ≡ (meaning self.now).front }
    {
        self.front
    }

    // Whether a match has to end where the line does.
    pub fn has_end_anchor(&self) -> bool
        ensures { result ≡ (meaning self.now).back }
    {
        self.back
    }

    pub fn items(&self) -> &[Item]
        ensures { map item_of result.now ≡ (meaning self.now).items }
    {
        self.items.as_slice()
    }
}
