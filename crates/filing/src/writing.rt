// A range of a text written as a file.
ghost use Rattle.std.specs.Prelude.{◌≡◌, ◌≤◌, [], ◌∷◌, ◌++◌, length, take, Some, Ok};
ghost use Rattle.lines.specs.Store.{line_at};
ghost use Rattle.shelf.specs.Shelf.{add_answer, add_after};
ghost use Rattle.ranges.specs.Spans.{RangesOver};
ghost use Rattle.rules.specs.Files.{filed};
ghost use Rattle.filing.specs.Contents.{contents_from, answer_of, shelf_after};

use command::fault::Fault;
use lines::line::{LINE_BREAK, LINE_MAX};
use lines::line_of::LineOf;
use lines::store::LineStore;
use printing::listing::printed_size;
use ranges::range::Range;
use shelf::interface::Shelf;

// The longest line, with its break.
const ROW: usize = LINE_MAX + 1;

// How many bytes a range of a text is as a file.
pub fn file_size<T: LineStore>(text: &T, range: Option<Range>) -> usize
    requires { RangesOver (length (T.LineStore.meaning text.now).lines) range }
    ensures value { result ≡ length (contents_from range (T.LineStore.meaning text.now)) }
    ensures bounded { result ≤ 1048576 }
{
    range.map_or(0, |lines| printed_size(text, lines))
}

// Writes a range of the text as the whole contents of the file of a name. `size` is how many bytes that will be.
pub fn write_file<T: LineStore, S: Shelf>(
    text: &T,
    range: Option<Range>,
    size: usize,
    shelf: &mut S,
    name: &[u8],
) -> Result<(), Fault>
    requires count { RangesOver (length (T.LineStore.meaning text.now).lines) range }
    requires size { size ≡ length (contents_from range (T.LineStore.meaning text.now)) }
    ensures value { result ≡ answer_of (filed (S.Shelf.meaning shelf.old) name.now (contents_from range (T.LineStore.meaning text.now))) }
    ensures shelf { S.Shelf.meaning shelf.new ≡ shelf_after (S.Shelf.meaning shelf.old) (filed (S.Shelf.meaning shelf.old) name.now (contents_from range (T.LineStore.meaning text.now))) }
{
    let file = shelf.clear(name, size)?;
    add_range(text, range, shelf, file);
    Ok(())
}

// Adds the lines of a range, if there is one, to a file that has room for them.
fn add_range<T: LineStore, S: Shelf>(text: &T, range: Option<Range>, shelf: &mut S, file: usize)
    requires count { RangesOver (length (T.LineStore.meaning text.now).lines) range }
    requires room { add_answer (S.Shelf.meaning shelf.old) file (contents_from range (T.LineStore.meaning text.now)) ≡ Ok tt }
    ensures { S.Shelf.meaning shelf.new ≡ add_after (S.Shelf.meaning shelf.old) file (contents_from range (T.LineStore.meaning text.now)) }
{
    if let Some(lines) = range {
        add_lines(text, lines, shelf, file);
    }
}

// Adds the lines of a range to a file that has room for them.
fn add_lines<T: LineStore, S: Shelf>(text: &T, range: Range, shelf: &mut S, file: usize)
    requires count { range.count ≡ length (T.LineStore.meaning text.now).lines }
    requires room { add_answer (S.Shelf.meaning shelf.old) file (contents_from (Some range) (T.LineStore.meaning text.now)) ≡ Ok tt }
    ensures { S.Shelf.meaning shelf.new ≡ add_after (S.Shelf.meaning shelf.old) file (contents_from (Some range) (T.LineStore.meaning text.now)) }
{
    for i in range.first - 1..range.last {
        add_line(
            &LineOf {
                store: text,
                n: i + 1,
            },
            shelf,
            file,
        );
    }
}

// Adds a line with its break to a file.
fn add_line<T: LineStore, S: Shelf>(line: &LineOf<'_, T>, shelf: &mut S, file: usize)
    ensures { S.Shelf.meaning shelf.new ≡ add_after (S.Shelf.meaning shelf.old) file ((line_at (T.LineStore.meaning line.now.store.now) line.now.n).text ++ (10 ∷ [])) }
{
    let _ = shelf.add(file, row(line, &mut [0; ROW]));
}

// A line with its break, copied to a buffer.
fn row<'b, T: LineStore>(line: &LineOf<'_, T>, buffer: &'b mut [u8; ROW]) -> &'b [u8]
    ensures { result.now ≡ (line_at (T.LineStore.meaning line.now.store.now) line.now.n).text ++ (10 ∷ []) }
{
    let size = line.store.copy(line.n, buffer).unwrap();
    buffer[size] = LINE_BREAK;
    &buffer[0..size + 1]
}
