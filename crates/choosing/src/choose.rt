// The lines that a global chooses, in one pass over the text.
ghost use Rattle.std.specs.Prelude.{◌≡◌, ◌≤◌, length};
ghost use Rattle.lines.specs.Store.{line_at};
ghost use Rattle.command.specs.View.{chooser_view};
ghost use Rattle.ranges.specs.Spans.{span_or, RangesOver};
ghost use Rattle.rules.specs.Globals.{wanted, choice, chosen_in};
ghost use Rattle.rules.specs.Lines.{seen_lines, choosing, on_line};

use crate::wanting::Choice;
use command::said::Chooser;
use lines::line_of::LineOf;
use lines::store::LineStore;
use ranges::range::Range;
use tags::chosen::set_chosen;

// Chooses the lines of the range that the chooser holds of, and no others; answers how many that are. No range stands for the
// lines of an empty text.
pub fn choose<T: LineStore>(text: &mut T, range: Option<Range>, chooser: Chooser<'_>) -> usize
    requires { RangesOver (length (T.LineStore.meaning text.old).lines) range }
    ensures lines { seen_lines (T.LineStore.meaning text.new) ≡ choice (wanted (chooser_view chooser.entry) (span_or range)) 1 (seen_lines (T.LineStore.meaning text.old)) }
    ensures count { result ≡ chosen_in (seen_lines (T.LineStore.meaning text.new)) }
    ensures capacity { (T.LineStore.meaning text.new).capacity ≡ (T.LineStore.meaning text.old).capacity }
    ensures size { length (T.LineStore.meaning text.new).lines ≡ length (T.LineStore.meaning text.old).lines }
{
    let wanting = Choice::new(range, chooser);
    let mut chosen = 0;
    // Each turn alters the text, so this is no `filter` and `count`: their closure would have to hold it.
    for i in 0..text.count() {
        if choose_line(text, i + 1, &wanting) {
            chosen += 1;
        }
    }
    chosen
}

// Line `n` is chosen if it is wanted, and else it is not; answers which.
fn choose_line<T: LineStore>(text: &mut T, n: usize, choice: &Choice<'_>) -> bool
    requires { (1 ≤ n) × (n ≤ length (T.LineStore.meaning text.old).lines) }
    ensures value { result ≡ wanted (chooser_view choice.now.chooser) (span_or choice.now.range) n (line_at (T.LineStore.meaning text.old) n).text }
    ensures lines { seen_lines (T.LineStore.meaning text.new) ≡ on_line n (choosing result) (seen_lines (T.LineStore.meaning text.old)) }
    ensures capacity { (T.LineStore.meaning text.new).capacity ≡ (T.LineStore.meaning text.old).capacity }
    ensures size { length (T.LineStore.meaning text.new).lines ≡ length (T.LineStore.meaning text.old).lines }
{
    let wanted = choice.wants(&LineOf { store: text, n });
    set_chosen(text, n, wanted);
    wanted
}
