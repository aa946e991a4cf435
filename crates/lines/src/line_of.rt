// One line of a store, by its number.
ghost use Rattle.std.specs.Prelude.{◌≡◌, ◌^◌, ◌<◌, ◌≤◌, length};
ghost use Rattle.lines.specs.Store.{line_at};

use crate::line::{LINE_MAX, LineText, Tag};
use crate::store::LineStore;

// A line that is there: a store, and the number of one of its lines. So nothing that it is asked is refused. It borrows the store:
// what changes a store takes the store and a number.
#[derive(Drop)]
pub struct LineOf<'a, T: LineStore> {
    pub store: &'a T,
    pub n: usize,
    ghost some: { 1 ≤ n },
    ghost within: { n ≤ length (T.meaning store.now).lines },
}

impl<'a, T: LineStore> LineOf<'a, T> {
    // How many bytes its text has.
    pub fn len(&self) -> usize
        ensures value { result ≡ length (line_at (T.meaning self.now.store.now) self.now.n).text }
        ensures short { result ≤ 255 }
    {
        self.store.length(self.n).unwrap()
    }

    pub fn tag(&self) -> Tag
        ensures value { result ≡ (line_at (T.meaning self.now.store.now) self.now.n).tag }
        ensures defined { result < 2 ^ 27 }
    {
        self.store.tag(self.n).unwrap()
    }

    // Its text, copied to the front of a buffer.
    pub fn read<'b>(&self, buffer: &'b mut [u8; LINE_MAX]) -> LineText<'b>
        ensures { result.bytes.now ≡ (line_at (T.meaning self.now.store.now) self.now.n).text }
    {
        let size = self.store.copy(self.n, buffer).unwrap();
        LineText {
            bytes: &buffer[0..size],
        }
    }
}
