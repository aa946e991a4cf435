// What a session does with the text that it keeps for undoing.
ghost use Rattle.std.specs.Prelude.{◌≡◌};
ghost use Rattle.rules.specs.Lines.{seen_lines, unchosen};

use crate::blocks::empty;
use crate::single::copy_line;
use crate::swapping::{move_tail, swap_front};
use lines::line_of::LineOf;
use lines::store::LineStore;
use tags::tag::without_chosen;

// Fills the keep with a copy of the text in which no line is chosen.
pub fn fill_keep<T: LineStore, K: LineStore>(text: &T, keep: &mut K)
    requires { (T.LineStore.meaning text.now).capacity ≡ (K.LineStore.meaning keep.old).capacity }
    ensures lines { seen_lines (K.LineStore.meaning keep.new) ≡ unchosen (seen_lines (T.LineStore.meaning text.now)) }
    ensures capacity { (K.LineStore.meaning keep.new).capacity ≡ (K.LineStore.meaning keep.old).capacity }
{
    empty(keep);
    for i in 0..text.count() {
        let line = LineOf {
            store: text,
            n: i + 1,
        };
        copy_line(&line, keep, i, without_chosen(line.tag()));
    }
}

// Exchanges the lines of two stores of one capacity.
pub fn exchange<T: LineStore, K: LineStore>(text: &mut T, keep: &mut K)
    requires { (T.LineStore.meaning text.old).capacity ≡ (K.LineStore.meaning keep.old).capacity }
    ensures text { T.LineStore.meaning text.new ≡ K.LineStore.meaning keep.old }
    ensures keep { K.LineStore.meaning keep.new ≡ T.LineStore.meaning text.old }
{
    let n = text.count();
    let m = keep.count();
    if m < n {
        swap_front(text, keep, m);
        move_tail(text, m, keep);
    } else {
        swap_front(text, keep, n);
        move_tail(keep, n, text);
    }
}
