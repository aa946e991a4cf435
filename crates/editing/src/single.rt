// Edits of one line that nothing can refuse.
ghost use Rattle.std.specs.Prelude.{◌≡◌, ◌^◌, ◌<◌, ◌≤◌, length};
ghost use Rattle.lines.specs.Store.{line_at};
ghost use Rattle.editing.specs.Shapes.{without, with_line};

use lines::line::{LINE_MAX, LineText, Tag};
use lines::line_of::LineOf;
use lines::store::LineStore;

// Takes line `n` away.
pub fn take_line<T: LineStore>(text: &mut T, n: usize)
    requires { (1 ≤ n) × (n ≤ length (T.LineStore.meaning text.old).lines) }
    ensures { T.LineStore.meaning text.new ≡ without (T.LineStore.meaning text.old) n n }
{
    let _ = text.remove(n);
}

// Puts a line behind line `behind`, or in front of all where that is 0.
pub fn put_line<T: LineStore>(text: &mut T, behind: usize, line: LineText<'_>, tag: Tag)
    requires place { behind ≤ length (T.LineStore.meaning text.old).lines }
    requires room { length (T.LineStore.meaning text.old).lines < (T.LineStore.meaning text.old).capacity }
    requires defined { tag < 2 ^ 27 }
    ensures { T.LineStore.meaning text.new ≡ with_line (T.LineStore.meaning text.old) behind (record { text = line.entry.bytes.now; tag = tag }) }
{
    let _ = text.put(behind, line.bytes, tag);
}

// Puts a line with the text of a line of another store, and with a tag of its own, behind line `at`.
pub fn copy_line<T: LineStore, K: LineStore>(line: &LineOf<'_, T>, to: &mut K, at: usize, tag: Tag)
    requires place { at ≤ length (K.LineStore.meaning to.old).lines }
    requires room { length (K.LineStore.meaning to.old).lines < (K.LineStore.meaning to.old).capacity }
    requires defined { tag < 2 ^ 27 }
    ensures { K.LineStore.meaning to.new ≡ with_line (K.LineStore.meaning to.old) at (record { text = (line_at (T.LineStore.meaning line.now.store.now) line.now.n).text; tag = tag }) }
{
    put_line(to, at, line.read(&mut [0; LINE_MAX]), tag);
}

// Puts a copy of a line of another store, with its tag, behind line `at`.
pub(crate) fn copy_with_tag<T: LineStore, K: LineStore>(line: &LineOf<'_, T>, to: &mut K, at: usize)
    requires place { at ≤ length (K.LineStore.meaning to.old).lines }
    requires room { length (K.LineStore.meaning to.old).lines < (K.LineStore.meaning to.old).capacity }
    ensures { K.LineStore.meaning to.new ≡ with_line (K.LineStore.meaning to.old) at (line_at (T.LineStore.meaning line.now.store.now) line.now.n) }
{
    copy_line(line, to, at, line.tag());
}

// A line that was taken out of a store.
#[derive(Drop)]
pub(crate) struct CutLine<'a> {
    pub text: LineText<'a>,
    pub tag: Tag,
    ghost defined: { tag < 2 ^ 27 },
}

// Takes line `n` out, its text copied to a buffer.
pub(crate) fn cut_line<'b, T: LineStore>(
    text: &mut T,
    n: usize,
    buffer: &'b mut [u8; LINE_MAX],
) -> CutLine<'b>
    requires { (1 ≤ n) × (n ≤ length (T.LineStore.meaning text.old).lines) }
    ensures left { T.LineStore.meaning text.new ≡ without (T.LineStore.meaning text.old) n n }
    ensures text { result.text.bytes.now ≡ (line_at (T.LineStore.meaning text.old) n).text }
    ensures tag { result.tag ≡ (line_at (T.LineStore.meaning text.old) n).tag }
{
    let line = LineOf { store: text, n };
    let cut = CutLine {
        tag: line.tag(),
        text: line.read(buffer),
    };
    take_line(text, n);
    cut
}

// Takes line `n` out, and puts it behind line `behind` of those that are left.
pub(crate) fn shift_line<T: LineStore>(text: &mut T, n: usize, behind: usize)
    requires here { (1 ≤ n) × (n ≤ length (T.LineStore.meaning text.old).lines) }
    requires place { behind < length (T.LineStore.meaning text.old).lines }
    ensures { T.LineStore.meaning text.new ≡ with_line (without (T.LineStore.meaning text.old) n n) behind (line_at (T.LineStore.meaning text.old) n) }
{
    let mut buffer = [0; LINE_MAX];
    let cut = cut_line(text, n, &mut buffer);
    put_line(text, behind, cut.text, cut.tag);
}
