// Reading an item, and the end of a pattern.
ghost use Rattle.std.specs.Prelude.{◌≡◌};
ghost use Rattle.patterns.specs.Behind.{set_left, item_left};
ghost use Rattle.patterns.specs.Sets.{Set};
ghost use Rattle.patterns.specs.Reading.{ending, special, escaped_at, set_at, star_at, item_at};

use super::Reader;
use crate::byte_set::ByteSet;
use crate::fault::PatternFault;
use crate::pattern::Item;

// A byte that `\` may stand in front of, whatever the delimiter.
fn is_special(byte: u8) -> bool
    ensures { result ≡ special byte }
{
    matches!(byte, b'.' | b'*' | b'[' | b']' | b'\\' | b'^' | b'$')
}

impl Reader<'_> {
    // What may stand behind the last item: nothing, or the end anchor. None where an item follows.
    pub(in crate::pattern) fn ending(&self) -> Option<bool>
        ensures { result ≡ ending self.now.rest.now }
    {
        match self.rest {
            [] => Some(false),
            [b'$'] => Some(true),
            _ => None,
        }
    }

    // A set, and the `*` behind it.
    pub(in crate::pattern) fn item(
        &mut self,
        delimiter: u8,
        first: bool,
    ) -> Result<Item, PatternFault>
        ensures { item_left result self.new.rest.now ≡ item_at delimiter first self.old.rest.now }
    {
        let set = self.set(delimiter, first)?;
        let starred = self.star();
        Ok(Item { set, starred })
    }

    // Whether a `*` stands here, which then is passed.
    fn star(&mut self) -> bool
        ensures { (s : Set) → star_at s self.old.rest.now ≡ (record { set = s; starred = result }, self.new.rest.now) }
    {
        match self.rest {
            [b'*', behind @ ..] => {
                self.rest = behind;
                true
            }
            _ => false,
        }
    }

    // The set of one item. `*` is itself where it is `first`.
    fn set(&mut self, delimiter: u8, first: bool) -> Result<ByteSet, PatternFault>
        ensures { set_left result self.new.rest.now ≡ set_at delimiter first self.old.rest.now }
    {
        let [byte, behind @ ..] = self.rest else {
            return Err(PatternFault::Bad);
        };
        self.rest = behind;
        match *byte {
            b'.' => Ok(ByteSet::every()),
            b'[' => self.brackets(),
            b'\\' => self.escaped(delimiter),
            b'*' if !first => Err(PatternFault::Bad),
            byte => Ok(ByteSet::just(byte)),
        }
    }

    // The byte behind `\`, as itself.
    fn escaped(&mut self, delimiter: u8) -> Result<ByteSet, PatternFault>
        ensures { set_left result self.new.rest.now ≡ escaped_at delimiter self.old.rest.now }
    {
        match self.rest {
            [byte, behind @ ..] if is_special(*byte) || *byte == delimiter => {
                self.rest = behind;
                Ok(ByteSet::just(*byte))
            }
            _ => Err(PatternFault::Bad),
        }
    }
}
