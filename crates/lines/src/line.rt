// What a line may be: the bounds on its text and the bits of its tag.
ghost use Rattle.std.specs.Prelude.{◌≡◌, ◌≤◌, true, false, length, MatchOption};
ghost use Rattle.lines.specs.Line.{holds_break, fitting, defined};

// The marks of a line and whether it is chosen, one bit for each.
pub type Tag = u32;

// The longest text of a line, in bytes.
pub const LINE_MAX: usize = 255;

// The byte that ends a line in a file, and so stands in no line.
pub const LINE_BREAK: u8 = 10;

// The chosen bit, above the bits 0 to 25 of the marks a to z.
pub const CHOSEN: Tag = 1 << 26;

// The lowest bit that no tag has.
pub const UNDEFINED: Tag = 1 << 27;

// The tag of a line that is created: no mark, and not chosen.
pub const PLAIN: Tag = 0;

// A text that a line may have.
#[derive(Clone, Copy)]
pub struct LineText<'a> {
    pub bytes: &'a [u8],
    ghost short: { length bytes.now ≤ 255 },
    ghost unbroken: { holds_break bytes.now ≡ false },
}

impl<'a> LineText<'a> {
    // These bytes, if a line may have them.
    pub fn new(bytes: &'a [u8]) -> Option<LineText<'a>>
        ensures { MatchOption result (fitting bytes.now ≡ false) (λ t. (fitting bytes.now ≡ true) × (t.bytes.now ≡ bytes.now)) }
    {
        if !fits_line(bytes) {
            return None;
        }
        Some(LineText { bytes })
    }
}

// Whether a line may have this text.
pub fn fits_line(text: &[u8]) -> bool
    ensures { result ≡ fitting text.now }
{
    text.len() <= LINE_MAX && !text.contains(&LINE_BREAK)
}

// Whether a tag has no undefined bit.
pub fn is_defined(tag: Tag) -> bool
    ensures { result ≡ defined tag }
{
    tag < UNDEFINED
}
