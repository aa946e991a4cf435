// Lines of a text, each with a line break behind it.
ghost use Rattle.std.specs.Prelude.{◌≡◌, ◌+◌, ◌≤◌, [], ◌∷◌, ◌++◌, length};
ghost use Rattle.lines.specs.Store.{line_at};
ghost use Rattle.rules.specs.Lines.{seen_lines, from_to};
ghost use Rattle.rules.specs.Printing.{printed};
ghost use Rattle.printing.specs.Sheets.{written};

use lines::line::LINE_BREAK;
use lines::line_of::LineOf;
use lines::store::LineStore;
use ranges::range::Range;

// How many bytes the lines of a range print as.
pub fn printed_size<T: LineStore>(text: &T, range: Range) -> usize
    requires { range.count ≡ length (T.LineStore.meaning text.now).lines }
    ensures { result ≡ length (printed (from_to range.first range.last (seen_lines (T.LineStore.meaning text.now)))) }
{
    let mut size = 0;
    for i in range.first - 1..range.last {
        size += LineOf {
            store: text,
            n: i + 1,
        }
        .len()
            + 1;
    }
    size
}

// Prints the lines of a range at a place of a sheet that has room for them.
pub fn print_lines<T: LineStore>(text: &T, range: Range, sheet: &mut [u8], at: usize)
    requires count { range.count ≡ length (T.LineStore.meaning text.now).lines }
    requires room { at + length (printed (from_to range.first range.last (seen_lines (T.LineStore.meaning text.now)))) ≤ length sheet.old }
    ensures { sheet.new ≡ written sheet.old at (printed (from_to range.first range.last (seen_lines (T.LineStore.meaning text.now)))) }
{
    let mut place = at;
    for i in range.first - 1..range.last {
        place = print_line(
            &LineOf {
                store: text,
                n: i + 1,
            },
            sheet,
            place,
        );
    }
}

// Prints a line with its break at a place of a sheet that has room for it, and answers the place behind it.
fn print_line<T: LineStore>(line: &LineOf<'_, T>, sheet: &mut [u8], at: usize) -> usize
    requires { at + (length (line_at (T.LineStore.meaning line.now.store.now) line.now.n).text + 1) ≤ length sheet.old }
    ensures value { result ≡ at + (length (line_at (T.LineStore.meaning line.now.store.now) line.now.n).text + 1) }
    ensures after { sheet.new ≡ written sheet.old at ((line_at (T.LineStore.meaning line.now.store.now) line.now.n).text ++ (10 ∷ [])) }
{
    let size = line.store.copy(line.n, &mut sheet[at..]).unwrap();
    sheet[at + size] = LINE_BREAK;
    at + size + 1
}
