// Marks of lines: finding the line that bears one, and moving one to a line.
ghost use Rattle.std.specs.Prelude.{◌≡◌, ◌≤◌, false, map, length, IfSome};
ghost use Rattle.rules.specs.Lines.{seen_lines, has_mark, with_mark, first_where, mark_on};
ghost use Rattle.command.specs.Marks.{bit_of};

use crate::one_line::{bears, change_all, change_tag};
use crate::tag::{with_mark, without_mark};
use command::mark::Mark;
use lines::store::LineStore;

// The first line with a mark.
pub fn find_mark<T: LineStore>(text: &T, mark: Mark) -> Option<usize>
    ensures value { result ≡ first_where (has_mark (bit_of mark.letter)) 1 (seen_lines (T.LineStore.meaning text.now)) }
    ensures within { IfSome result (λ n. (1 ≤ n) × (n ≤ length (T.LineStore.meaning text.now).lines)) }
{
    (0..text.count())
        .find(|i| bears(text, *i + 1, mark))
        .map(|i| i + 1)
}

// Moves a mark to line `n`: no other line has it then.
pub fn set_mark<T: LineStore>(text: &mut T, n: usize, mark: Mark)
    requires { (1 ≤ n) × (n ≤ length (T.LineStore.meaning text.old).lines) }
    ensures lines { seen_lines (T.LineStore.meaning text.new) ≡ mark_on n (bit_of mark.letter) (seen_lines (T.LineStore.meaning text.old)) }
    ensures count { length (T.LineStore.meaning text.new).lines ≡ length (T.LineStore.meaning text.old).lines }
    ensures capacity { (T.LineStore.meaning text.new).capacity ≡ (T.LineStore.meaning text.old).capacity }
{
    change_all(text, |tag| without_mark(tag, mark));
    change_tag(text, n, &|tag| with_mark(tag, mark));
}
