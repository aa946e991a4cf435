// What is done with one slot: a vacant one made, its text read, a line written into it.
ghost use Rattle.std.specs.Prelude.{◌≡◌};
ghost use Rattle.lines.specs.Line.{LineFits, blank};
ghost use Rattle.chain_store.specs.Slot.{line_of};

use super::Slot;
use lines::line::{LINE_MAX, Tag};

impl Slot {
    // A slot with an empty line.
    pub fn vacant() -> Slot
        ensures { line_of result ≡ blank }
    {
        Slot {
            tag: 0,
            len: 0,
            bytes: [0u8; LINE_MAX],
        }
    }

    pub fn text(&self) -> &[u8]
        ensures { result.now ≡ (line_of self.now).text }
    {
        &self.bytes[0..self.len as usize]
    }

    // Writes a line over the slot's. Only the bytes of the text are copied.
    pub fn fill(&mut self, text: &[u8], tag: Tag)
        requires { LineFits (record { text = text.now; tag = tag }) }
        ensures { line_of self.new ≡ record { text = text.now; tag = tag } }
    {
        let size = text.len();
        self.bytes[0..size].copy_from_slice(text);
        self.len = size as u8;
        self.tag = tag;
    }
}
