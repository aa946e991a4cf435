// Which bit of a tag is which: bits 0 to 25 are the marks a to z, bit 26 says that the line is chosen.
ghost use Rattle.std.specs.Prelude.{◌≡◌, ℕ, ◌+◌, ◌^◌, ◌<◌, true, false, List};
ghost use Rattle.rules.specs.Lines.{seen, has_mark, with_mark, choosing};
ghost use Rattle.command.specs.Marks.{bit_of};
ghost use Rattle.tags.specs.Changing.{Retags};

use command::mark::Mark;
use lines::line::{CHOSEN, Tag};

// The tag of a line that is no longer chosen.
pub fn without_chosen(tag: Tag) -> Tag
    ensures seen { (t : List ℕ) → seen (record { text = t; tag = result }) ≡ choosing false (seen (record { text = t; tag = tag })) }
    ensures defined { tag < 2 ^ 27 → result < 2 ^ 27 }
{
    marks_of(tag)
}

// The tag of a line that is chosen.
pub fn with_chosen(tag: Tag) -> Tag
    ensures seen { (t : List ℕ) → seen (record { text = t; tag = result }) ≡ choosing true (seen (record { text = t; tag = tag })) }
    ensures defined { result < 2 ^ 27 }
{
    CHOSEN + marks_of(tag)
}

// The tag of a line that is chosen or not, as told.
pub(crate) fn chosen_as(tag: Tag, chosen: bool) -> Tag
    ensures { Retags (choosing chosen) tag result }
{
    if chosen {
        with_chosen(tag)
    } else {
        without_chosen(tag)
    }
}

// Whether a line with this tag is chosen.
pub fn is_chosen(tag: Tag) -> bool
    ensures { (t : List ℕ) → result ≡ (seen (record { text = t; tag = tag })).chosen }
{
    tag >= CHOSEN
}

// Whether a line with this tag bears a mark.
pub(crate) fn has_mark(tag: Tag, mark: Mark) -> bool
    ensures { (t : List ℕ) → result ≡ has_mark (bit_of mark.letter) (seen (record { text = t; tag = tag })) }
{
    (tag >> mark.bit()) & 1 == 1
}

// The tag of a line that bears a mark.
pub(crate) fn with_mark(tag: Tag, mark: Mark) -> Tag
    ensures { Retags (with_mark (bit_of mark.letter) true) tag result }
{
    if has_mark(tag, mark) {
        return tag;
    }
    tag + only_mark(mark)
}

// The tag of a line that does not bear a mark.
pub(crate) fn without_mark(tag: Tag, mark: Mark) -> Tag
    ensures { Retags (with_mark (bit_of mark.letter) false) tag result }
{
    if has_mark(tag, mark) {
        return tag - only_mark(mark);
    }
    tag
}

// The tag with a mark and nothing else.
fn only_mark(mark: Mark) -> Tag
    ensures { result ≡ 2 ^ (bit_of mark.letter) }
{
    1 << mark.bit()
}

// The marks of a tag, without the chosen bit above them.
fn marks_of(tag: Tag) -> Tag
    ensures below { result < 2 ^ 26 }
    ensures bare { (t : List ℕ) → seen (record { text = t; tag = result }) ≡ choosing false (seen (record { text = t; tag = tag })) }
    ensures chosen { (t : List ℕ) → seen (record { text = t; tag = 2 ^ 26 + result }) ≡ choosing true (seen (record { text = t; tag = tag })) }
{
    tag % CHOSEN
}
