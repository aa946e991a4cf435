// Reading a pattern from its bytes.
ghost use Rattle.std.specs.Prelude.{◌≡◌, map};
ghost use Rattle.patterns.specs.Reading.{body_at, pattern_of};
ghost use Rattle.patterns.specs.View.{item_of, meaning, viewed};

use super::reader::Reader;
use super::{ITEMS_MAX, Item, Pattern};
use crate::fault::PatternFault;
use arrayvec::ArrayVec;

impl Pattern {
    // The pattern that the bytes of a part spell. Behind `\`, the delimiter is a byte like another.
    #[tactic(auto, using(crate::proofs::Steps::pattern_plain), unfolding(crate::specs::Reading::pattern_of))]
    pub fn read(delimiter: u8, part: &[u8]) -> Result<Pattern, PatternFault>
        ensures { viewed result ≡ pattern_of delimiter part.now }
    {
        match part {
            [] => Err(PatternFault::Bad),
            [b'^', body @ ..] => read_body(true, delimiter, body),
            _ => read_body(false, delimiter, part),
        }
    }

    // The pattern of these parts, with no item more and none less.
    fn of_parts(front: bool, items: ArrayVec<Item, ITEMS_MAX>, back: bool) -> Pattern
        ensures front { (meaning result).front ≡ front }
        ensures items { (meaning result).items ≡ map item_of items.items }
        ensures back { (meaning result).back ≡ back }
    {
        Pattern { front, items, back }
    }
}

// The items up to the end, and the end anchor.
fn read_body(front: bool, delimiter: u8, body: &[u8]) -> Result<Pattern, PatternFault>
    ensures { viewed result ≡ body_at front delimiter body.now }
{
    let mut items: ArrayVec<_, ITEMS_MAX> = ArrayVec::new();
    let mut reader = Reader::new(body);
    loop {
        if let Some(back) = reader.ending() {
            return Ok(Pattern::of_parts(front, items, back));
        }
        if items.is_full() {
            return Err(PatternFault::Bad);
        }
        let item = reader.item(delimiter, items.is_empty())?;
        items.push(item);
    }
}
