// The tags of lines: what one says of its line, and changes of one and of all.
ghost use Rattle.std.specs.Prelude.{◌≡◌, ◌-◌, ◌≤◌, length, map};
ghost use Rattle.lines.specs.Store.{line_at};
ghost use Rattle.rules.specs.Lines.{Line, seen, seen_lines, on_line};
ghost use Rattle.command.specs.Marks.{bit_of};
ghost use Rattle.tags.specs.Bearing.{bearing};
ghost use Rattle.tags.specs.Changing.{ChangesTags, Means};

use crate::tag::{has_mark, is_chosen};
use command::mark::Mark;
use lines::line::Tag;
use lines::line_of::LineOf;
use lines::store::LineStore;

// Whether line `n` bears a mark. It takes a number, since a closure that made a `LineOf` of it would want a clause of its own.
pub(crate) fn bears<T: LineStore>(text: &T, n: usize, mark: Mark) -> bool
    requires { (1 ≤ n) × (n ≤ length (T.LineStore.meaning text.now).lines) }
    ensures { result ≡ bearing (bit_of mark.letter) (T.LineStore.meaning text.now) n }
{
    has_mark(LineOf { store: text, n }.tag(), mark)
}

// Whether line `n` is chosen.
pub(crate) fn chosen_at<T: LineStore>(text: &T, n: usize) -> bool
    requires { (1 ≤ n) × (n ≤ length (T.LineStore.meaning text.now).lines) }
    ensures { result ≡ (seen (line_at (T.LineStore.meaning text.now) n)).chosen }
{
    is_chosen(LineOf { store: text, n }.tag())
}

// Line `n` gets the tag that `change` makes of its own. A store is not bothered where that is the same.
pub(crate) fn change_tag<T: LineStore, F: Fn(Tag) -> Tag>(text: &mut T, n: usize, change: &F)
    requires line { (1 ≤ n) × (n ≤ length (T.LineStore.meaning text.old).lines) }
    requires change { ChangesTags (F.pre change.now) (F.post change.now) }
    ensures lines { (f : Line → Line) → Means (F.post change.now) f → seen_lines (T.LineStore.meaning text.new) ≡ on_line n f (seen_lines (T.LineStore.meaning text.old)) }
    ensures count { length (T.LineStore.meaning text.new).lines ≡ length (T.LineStore.meaning text.old).lines }
    ensures capacity { (T.LineStore.meaning text.new).capacity ≡ (T.LineStore.meaning text.old).capacity }
{
    let tag = LineOf { store: text, n }.tag();
    let changed = change(tag);
    if changed != tag {
        let _ = text.set_tag(n, changed);
    }
}

// Every line gets the tag that `change` makes of its own.
pub(crate) fn change_all<T: LineStore, F: Fn(Tag) -> Tag>(text: &mut T, change: F)
    requires callable { F.IsAlwaysCallable change }
    requires change { ChangesTags (F.pre change) (F.post change) }
    ensures lines { (f : Line → Line) → Means (F.post change) f → seen_lines (T.LineStore.meaning text.new) ≡ map f (seen_lines (T.LineStore.meaning text.old)) }
    ensures count { length (T.LineStore.meaning text.new).lines ≡ length (T.LineStore.meaning text.old).lines }
    ensures capacity { (T.LineStore.meaning text.new).capacity ≡ (T.LineStore.meaning text.old).capacity }
{
    for i in 0..text.count() {
        change_tag(text, i + 1, &change);
    }
}
