// A text with its current line, from which addresses are worked out.
ghost use Rattle.std.specs.Prelude.{◌≤◌, length};

use lines::store::LineStore;

// The current line is a line of the text, or 0.
#[derive(Drop)]
pub struct Page<'a, T: LineStore> {
    pub text: &'a T,
    pub current: usize,
    ghost within: { current ≤ length (T.meaning text.now).lines },
}
