// The parts of an exchange of two stores: line by line as far as both have lines, then what the longer one has left.
ghost use Rattle.std.specs.Prelude.{◌≡◌, ◌+◌, ◌-◌, ◌≤◌, ◌++◌, length, take, drop};
ghost use Rattle.lines.specs.Store.{line_at, with_lines};
ghost use Rattle.editing.specs.Shapes.{fronted, with_set};

use crate::single::{copy_with_tag, cut_line, put_line, take_line};
use lines::line::LINE_MAX;
use lines::line_of::LineOf;
use lines::store::LineStore;

// Exchanges line `n` of two stores. Neither need have room for a line more.
fn swap_line<T: LineStore, K: LineStore>(text: &mut T, keep: &mut K, n: usize)
    requires one { 1 ≤ n }
    requires text { n ≤ length (T.LineStore.meaning text.old).lines }
    requires keep { n ≤ length (K.LineStore.meaning keep.old).lines }
    ensures text { T.LineStore.meaning text.new ≡ with_set (T.LineStore.meaning text.old) n (line_at (K.LineStore.meaning keep.old) n) }
    ensures keep { K.LineStore.meaning keep.new ≡ with_set (K.LineStore.meaning keep.old) n (line_at (T.LineStore.meaning text.old) n) }
{
    let mut buffer = [0; LINE_MAX];
    let cut = cut_line(text, n, &mut buffer);
    copy_with_tag(&LineOf { store: keep, n }, text, n - 1);
    take_line(keep, n);
    put_line(keep, n - 1, cut.text, cut.tag);
}

// Exchanges the first `n` lines of two stores.
pub(crate) fn swap_front<T: LineStore, K: LineStore>(text: &mut T, keep: &mut K, n: usize)
    requires text { n ≤ length (T.LineStore.meaning text.old).lines }
    requires keep { n ≤ length (K.LineStore.meaning keep.old).lines }
    ensures text { T.LineStore.meaning text.new ≡ fronted (T.LineStore.meaning text.old) n (K.LineStore.meaning keep.old) }
    ensures keep { K.LineStore.meaning keep.new ≡ fronted (K.LineStore.meaning keep.old) n (T.LineStore.meaning text.old) }
{
    for i in 0..n {
        swap_line(text, keep, i + 1);
    }
}

// Moves the lines behind line `at` to the end of the other store, which has room for them.
pub(crate) fn move_tail<T: LineStore, K: LineStore>(from: &mut T, at: usize, to: &mut K)
    requires within { at ≤ length (T.LineStore.meaning from.old).lines }
    requires room { length (K.LineStore.meaning to.old).lines + (length (T.LineStore.meaning from.old).lines - at) ≤ (K.LineStore.meaning to.old).capacity }
    ensures from { T.LineStore.meaning from.new ≡ with_lines (T.LineStore.meaning from.old) (take at (T.LineStore.meaning from.old).lines) }
    ensures to { K.LineStore.meaning to.new ≡ with_lines (K.LineStore.meaning to.old) ((K.LineStore.meaning to.old).lines ++ drop at (T.LineStore.meaning from.old).lines) }
{
    let n = from.count();
    let m = to.count();
    for i in at..n {
        let line = LineOf {
            store: from,
            n: at + 1,
        };
        copy_with_tag(&line, to, m + (i - at));
        take_line(from, at + 1);
    }
}
