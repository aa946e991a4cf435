// A slot, the place of one line.
ghost use Rattle.std.specs.Prelude.{◌≡◌, ◌^◌, ◌<◌, false, length, take};
ghost use Rattle.lines.specs.Line.{holds_break};

use lines::line::{LINE_MAX, Tag};

mod filling;

// A slot holds a proper line at all times, a free one too. The text is the first `len` bytes of `bytes`.
// No list with its length: a store has 4,096 slots, and this one takes 260 bytes and is `Copy`.
#[derive(Clone, Copy)]
pub struct Slot {
    pub tag: Tag,
    pub len: u8,
    pub bytes: [u8; LINE_MAX],
    ghost full: { length bytes ≡ 255 },
    ghost unbroken: { holds_break (take len bytes) ≡ false },
    ghost defined: { tag < 2 ^ 27 },
}
