// The lines of a range that match, rewritten where they stand.
ghost use Rattle.std.specs.Prelude.{◌≡◌, ◌+◌, ◌-◌, ◌<◌, ◌≤◌, true, ◌∷◌, ◌++◌, map, length, take, drop};
ghost use Rattle.lines.specs.Line.{fitting, all_fit};
ghost use Rattle.lines.specs.Store.{line_at};
ghost use Rattle.command.specs.View.{substitution_view};
ghost use Rattle.rules.specs.Doing.{texts_of};
ghost use Rattle.rules.specs.Lines.{seen, seen_lines, created};
ghost use Rattle.substituting.specs.Made.{after, lines_for};
ghost use Rattle.substituting.specs.Rest.{lines_of};

use crate::rule::Rule;
use crate::spelling::Spelling;
use command::said::Substitution;
use editing::single::{put_line, take_line};
use lines::line::{LINE_MAX, LineText, PLAIN};
use lines::line_of::LineOf;
use lines::store::LineStore;
use ranges::range::Range;

// Rewrites the lines of the range that match.
pub fn rewrite<T: LineStore>(text: &mut T, range: Range, substitution: Substitution<'_>)
    requires count { range.count ≡ length (T.LineStore.meaning text.old).lines }
    requires fits { all_fit (texts_of (after substitution range (T.LineStore.meaning text.old))) ≡ true }
    requires room { length (after substitution range (T.LineStore.meaning text.old)) ≤ (T.LineStore.meaning text.old).capacity }
    ensures lines { seen_lines (T.LineStore.meaning text.new) ≡ after substitution.entry range (T.LineStore.meaning text.old) }
    ensures capacity { (T.LineStore.meaning text.new).capacity ≡ (T.LineStore.meaning text.old).capacity }
    ensures front { take (range.first - 1) (seen_lines (T.LineStore.meaning text.new)) ≡ take (range.first - 1) (seen_lines (T.LineStore.meaning text.old)) }
{
    rewrite_lines(text, range, &Rule::new(substitution));
}

// The same by the rule.
fn rewrite_lines<T: LineStore>(text: &mut T, range: Range, rule: &Rule<'_>)
    requires count { range.count ≡ length (T.LineStore.meaning text.old).lines }
    requires fits { all_fit (texts_of (after rule.now.substitution range (T.LineStore.meaning text.old))) ≡ true }
    requires room { length (after rule.now.substitution range (T.LineStore.meaning text.old)) ≤ (T.LineStore.meaning text.old).capacity }
    ensures lines { seen_lines (T.LineStore.meaning text.new) ≡ after rule.now.substitution range (T.LineStore.meaning text.old) }
    ensures capacity { (T.LineStore.meaning text.new).capacity ≡ (T.LineStore.meaning text.old).capacity }
    ensures front { take (range.first - 1) (seen_lines (T.LineStore.meaning text.new)) ≡ take (range.first - 1) (seen_lines (T.LineStore.meaning text.old)) }
{
    let mut done = range.first - 1;
    for _ in range.first..=range.last {
        done = rewrite_line(text, done, rule);
    }
}

// Rewrites the line behind the first `done`, and answers how many lines are done then.
fn rewrite_line<T: LineStore>(text: &mut T, done: usize, rule: &Rule<'_>) -> usize
    requires present { done < length (T.LineStore.meaning text.old).lines }
    requires fits { all_fit (texts_of (lines_for (substitution_view rule.now.substitution) (seen (line_at (T.LineStore.meaning text.old) (done + 1))))) ≡ true }
    requires room { length (T.LineStore.meaning text.old).lines + length (lines_for (substitution_view rule.now.substitution) (seen (line_at (T.LineStore.meaning text.old) (done + 1)))) ≤ (T.LineStore.meaning text.old).capacity + 1 }
    ensures lines { seen_lines (T.LineStore.meaning text.new) ≡ take done (seen_lines (T.LineStore.meaning text.old)) ++ (lines_for (substitution_view rule.now.substitution) (seen (line_at (T.LineStore.meaning text.old) (done + 1))) ++ drop (done + 1) (seen_lines (T.LineStore.meaning text.old))) }
    ensures capacity { (T.LineStore.meaning text.new).capacity ≡ (T.LineStore.meaning text.old).capacity }
    ensures done { result ≡ done + length (lines_for (substitution_view rule.now.substitution) (seen (line_at (T.LineStore.meaning text.old) (done + 1)))) }
{
    let n = done + 1;
    let mut buffer = [0; LINE_MAX];
    let Some(line) = rule.hit(&LineOf { store: text, n }, &mut buffer) else {
        return n;
    };
    take_line(text, n);
    put_lines(text, done, Spelling::new(rule, line))
}

// Puts lines that are spelled out behind line `behind`, and answers the number of the last of them.
fn put_lines<T: LineStore>(text: &mut T, behind: usize, mut lines: Spelling<'_>) -> usize
    requires behind { behind ≤ length (T.LineStore.meaning text.old).lines }
    requires fits { all_fit (lines_of lines) ≡ true }
    requires room { length (T.LineStore.meaning text.old).lines + length (lines_of lines) ≤ (T.LineStore.meaning text.old).capacity }
    ensures lines { seen_lines (T.LineStore.meaning text.new) ≡ take behind (seen_lines (T.LineStore.meaning text.old)) ++ (map created (lines_of lines.entry) ++ drop behind (seen_lines (T.LineStore.meaning text.old))) }
    ensures capacity { (T.LineStore.meaning text.new).capacity ≡ (T.LineStore.meaning text.old).capacity }
    ensures done { result ≡ behind + length (lines_of lines.entry) }
{
    // Counted by hand: the count is what is answered, so it is wanted behind the loop too.
    let mut done = behind;
    let mut line = None;
    while lines.next_line(&mut line) {
        let bytes = line.as_ref().unwrap();
        put_line(text, done, LineText { bytes }, PLAIN);
        done += 1;
    }
    done
}
