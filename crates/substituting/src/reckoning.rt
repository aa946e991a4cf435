// What a substitution would make of a text, before anything is altered.
ghost use Rattle.std.specs.Prelude.{◌≡◌, ◌+◌, ◌≤◌, min, true, length, IfSome};
ghost use Rattle.std.specs.List.{fold};
ghost use Rattle.lines.specs.Line.{all_fit};
ghost use Rattle.lines.specs.Store.{line_at};
ghost use Rattle.command.specs.View.{substitution_view};
ghost use Rattle.rules.specs.Doing.{texts_of};
ghost use Rattle.rules.specs.Lines.{picked};
ghost use Rattle.rules.specs.Pieces.{last_new};
ghost use Rattle.rules.specs.Printing.{printed};
ghost use Rattle.substituting.specs.Made.{pieces_of, after, pieces_for};
ghost use Rattle.substituting.specs.Reckoning.{number_of, reckoned_line, reckoned_old, reckoned_pieces, Right};
ghost use Rattle.substituting.specs.Rest.{rest_of};

use crate::line::Spelled;
use crate::rule::Rule;
use crate::spelling::Spelling;
use command::said::Substitution;
use lines::line::{LINE_MAX, fits_line};
use lines::line_of::LineOf;
use lines::store::{CAPACITY_MAX, LineStore};
use ranges::range::Range;

// What stands for every number of lines that no store holds.
const TOO_MANY: usize = CAPACITY_MAX + 1;

// A line that would be created.
#[derive(Clone, Copy)]
pub struct Created {
    pub number: usize,
    // How many bytes it prints as, if it fits.
    pub size: usize,
}

#[derive(Clone, Copy)]
pub struct Reckoned {
    // How many lines the text would have.
    pub count: usize,
    // Whether each of them may be a line.
    pub fits: bool,
    // The last line created, if any is.
    pub last: Option<Created>,
}

// What the substitution would make of the text: how many lines, whether each would fit, the last one created. Of more than
// 4,096 lines, which no store holds, each number of a line or of lines past that is answered as 4,097.
pub fn reckon<T: LineStore>(text: &T, range: Range, substitution: Substitution<'_>) -> Reckoned
    requires { range.count ≡ length (T.LineStore.meaning text.now).lines }
    ensures count { result.count ≡ min (length (after substitution.entry range (T.LineStore.meaning text.now))) 4097 }
    ensures fits { result.fits ≡ all_fit (texts_of (after substitution.entry range (T.LineStore.meaning text.now))) }
    ensures last { number_of result.last ≡ min (last_new 0 0 (pieces_of substitution.entry range (T.LineStore.meaning text.now))) 4097 }
    ensures some { IfSome result.last (λ line. 1 ≤ line.number) }
    ensures within { last_new 0 0 (pieces_of substitution.entry range (T.LineStore.meaning text.now)) ≤ length (after substitution.entry range (T.LineStore.meaning text.now)) }
    ensures exact { result.count ≤ 4096 → (result.count ≡ length (after substitution.entry range (T.LineStore.meaning text.now))) × (number_of result.last ≡ last_new 0 0 (pieces_of substitution.entry range (T.LineStore.meaning text.now))) }
    ensures size { result.fits ≡ true → result.count ≤ 4096 → IfSome result.last (λ line. line.size ≡ length (printed (picked (after substitution.entry range (T.LineStore.meaning text.now)) line.number))) }
{
    reckon_lines(text, range, &Rule::new(substitution))
}

// The same by the rule. The lines in front of the range and behind it stay.
fn reckon_lines<T: LineStore>(text: &T, range: Range, rule: &Rule<'_>) -> Reckoned
    requires { range.count ≡ length (T.LineStore.meaning text.now).lines }
    ensures { Right (after rule.now.substitution range (T.LineStore.meaning text.now)) (last_new 0 0 (pieces_of rule.now.substitution range (T.LineStore.meaning text.now))) result }
{
    let mut sum = Reckoned {
        count: range.first - 1,
        fits: true,
        last: None,
    };
    for n in range.first..=range.last {
        sum = sum.with_line(&LineOf { store: text, n }, rule);
    }
    Reckoned {
        count: plus(sum.count, range.count - range.last),
        ..sum
    }
}

// The sum of two numbers of lines, as it is reckoned.
fn plus(count: usize, more: usize) -> usize
    ensures { result ≡ min (count + more) 4097 }
{
    count.saturating_add(more).min(TOO_MANY)
}

impl Reckoned {
    // With a line of a text more, which is in the range.
    fn with_line<T: LineStore>(self, line: &LineOf<'_, T>, rule: &Rule<'_>) -> Reckoned
        ensures { result ≡ reckoned_pieces self (pieces_for (substitution_view rule.now.substitution) line.now.n (line_at (T.LineStore.meaning line.now.store.now) line.now.n).text) }
    {
        match rule.hit(line, &mut [0; LINE_MAX]) {
            None => self.with_old(),
            Some(text) => self.with_lines(Spelling::new(rule, text)),
        }
    }

    // With a line more that stays.
    fn with_old(self) -> Reckoned
        ensures { result ≡ reckoned_old self }
    {
        Reckoned {
            count: plus(self.count, 1),
            ..self
        }
    }

    // With the lines more that one becomes, each spelled out in the place of the last.
    fn with_lines(self, mut lines: Spelling<'_>) -> Reckoned
        ensures { result ≡ fold reckoned_line self (rest_of lines.entry) }
    {
        let mut sum = self;
        let mut line = None;
        while lines.next_line(&mut line) {
            sum = sum.with_new(&line);
        }
        sum
    }

    // With a line more that is created.
    fn with_new(self, line: &Spelled) -> Reckoned
        ensures { result ≡ reckoned_line self line.now }
    {
        let number = plus(self.count, 1);
        let (fits, size) = match line {
            Some(line) => (fits_line(line), line.len() + 1),
            None => (false, 0),
        };
        Reckoned {
            count: number,
            fits: self.fits & fits,
            last: Some(Created { number, size }),
        }
    }
}
