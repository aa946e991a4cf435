// Lines that a global has chosen: finding the next one, and choosing.
ghost use Rattle.std.specs.Prelude.{◌≡◌, suc, ◌<◌, ◌≤◌, length, drop, IfSome};
ghost use Rattle.rules.specs.Lines.{seen_lines, choosing, unchosen, on_line, first_where};

use crate::one_line::{change_all, change_tag, chosen_at};
use crate::tag::{chosen_as, without_chosen};
use lines::store::LineStore;

// The first chosen line behind line `behind`.
pub fn next_chosen<T: LineStore>(text: &T, behind: usize) -> Option<usize>
    ensures value { result ≡ first_where (λ l. l.chosen) (suc behind) (drop behind (seen_lines (T.LineStore.meaning text.now))) }
    ensures within { IfSome result (λ n. (behind < n) × (n ≤ length (T.LineStore.meaning text.now).lines)) }
{
    (behind..text.count())
        .find(|i| chosen_at(text, *i + 1))
        .map(|i| i + 1)
}

// Line `n` is chosen or not, as told.
pub fn set_chosen<T: LineStore>(text: &mut T, n: usize, chosen: bool)
    requires { (1 ≤ n) × (n ≤ length (T.LineStore.meaning text.old).lines) }
    ensures lines { seen_lines (T.LineStore.meaning text.new) ≡ on_line n (choosing chosen) (seen_lines (T.LineStore.meaning text.old)) }
    ensures count { length (T.LineStore.meaning text.new).lines ≡ length (T.LineStore.meaning text.old).lines }
    ensures capacity { (T.LineStore.meaning text.new).capacity ≡ (T.LineStore.meaning text.old).capacity }
{
    change_tag(text, n, &|tag| chosen_as(tag, chosen));
}

// No line is chosen any more.
pub fn clear_chosen<T: LineStore>(text: &mut T)
    ensures lines { seen_lines (T.LineStore.meaning text.new) ≡ unchosen (seen_lines (T.LineStore.meaning text.old)) }
    ensures count { length (T.LineStore.meaning text.new).lines ≡ length (T.LineStore.meaning text.old).lines }
    ensures capacity { (T.LineStore.meaning text.new).capacity ≡ (T.LineStore.meaning text.old).capacity }
{
    change_all(text, without_chosen);
}
