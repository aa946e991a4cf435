// The lines of a file: how many there are, and how they come into a text.
ghost use Rattle.std.specs.Prelude.{◌≡◌, ◌+◌, ◌<◌, ◌≤◌, true, [], ◌∷◌, ◌++◌, map, length, drop};
ghost use Rattle.lines.specs.Line.{all_fit};
ghost use Rattle.rules.specs.Files.{split};
ghost use Rattle.rules.specs.Lines.{seen_lines, created};
ghost use Rattle.filing.specs.Contents.{file_in};
ghost use Rattle.filing.specs.Counting.{counted, uncounted, line_length, first_line};

use crate::count::Count;
use editing::single::put_line;
use lines::line::{LINE_BREAK, LINE_MAX, LineText, PLAIN};
use lines::store::LineStore;
use shelf::file_of::FileOf;
use shelf::interface::Shelf;

// How much of a file is read at once: the longest line with its break.
const CHUNK: usize = LINE_MAX + 1;

// The lines of a file: how many, and whether each may be a line of a text.
#[derive(Clone, Copy)]
pub struct Tally {
    pub lines: usize,
    pub fits: bool,
}

// How many lines a file holds, and whether each may be a line of a text.
pub fn tally_file<S: Shelf>(file: &FileOf<'_, S>) -> Tally
    ensures lines { result.lines ≡ length (split (file_in (S.Shelf.meaning file.now.shelf.now) file.now.file)) }
    ensures fits { result.fits ≡ all_fit (split (file_in (S.Shelf.meaning file.now.shelf.now) file.now.file)) }
{
    let count = count_file(file);
    Tally {
        lines: count.lines(),
        fits: count.all_fit(),
    }
}

// The count of all bytes of a file.
fn count_file<S: Shelf>(file: &FileOf<'_, S>) -> Count
    ensures value { result ≡ counted uncounted (file_in (S.Shelf.meaning file.now.shelf.now) file.now.file) }
    ensures bounded { result.ended ≤ 1048576 }
{
    let mut count = Count::none();
    for place in (0..file.size()).step_by(CHUNK) {
        count = count.with_bytes(file.read(place, &mut [0; CHUNK]));
    }
    count
}

// Puts the lines of a file into an empty text.
pub fn load_file<T: LineStore, S: Shelf>(file: &FileOf<'_, S>, text: &mut T)
    requires empty { (T.LineStore.meaning text.old).lines ≡ [] }
    requires fits { all_fit (split (file_in (S.Shelf.meaning file.now.shelf.now) file.now.file)) ≡ true }
    requires room { length (split (file_in (S.Shelf.meaning file.now.shelf.now) file.now.file)) ≤ (T.LineStore.meaning text.old).capacity }
    ensures lines { seen_lines (T.LineStore.meaning text.new) ≡ map created (split (file_in (S.Shelf.meaning file.now.shelf.now) file.now.file)) }
    ensures capacity { (T.LineStore.meaning text.new).capacity ≡ (T.LineStore.meaning text.old).capacity }
{
    let size = file.size();
    let mut next = 0;
    // The places are no range: each line says where the next one begins.
    while next < size {
        next = load_line(file, next, text);
    }
}

// Puts the line that begins at a place of a file behind the last line of a text, and answers the place behind its break.
fn load_line<T: LineStore, S: Shelf>(file: &FileOf<'_, S>, place: usize, text: &mut T) -> usize
    requires within { place < length (file_in (S.Shelf.meaning file.now.shelf.now) file.now.file) }
    requires fits { all_fit (split (drop place (file_in (S.Shelf.meaning file.now.shelf.now) file.now.file))) ≡ true }
    requires room { length (T.LineStore.meaning text.old).lines + length (split (drop place (file_in (S.Shelf.meaning file.now.shelf.now) file.now.file))) ≤ (T.LineStore.meaning text.old).capacity }
    ensures next { result ≡ place + line_length (drop place (file_in (S.Shelf.meaning file.now.shelf.now) file.now.file)) + 1 }
    ensures lines { seen_lines (T.LineStore.meaning text.new) ≡ seen_lines (T.LineStore.meaning text.old) ++ (created (first_line (drop place (file_in (S.Shelf.meaning file.now.shelf.now) file.now.file))) ∷ []) }
    ensures capacity { (T.LineStore.meaning text.new).capacity ≡ (T.LineStore.meaning text.old).capacity }
{
    let mut buffer = [0; CHUNK];
    let line = line_at(file, place, &mut buffer);
    put_line(text, text.count(), line, PLAIN);
    place + line.bytes.len() + 1
}

// The line that begins at a place of a file, copied to a buffer.
fn line_at<'b, S: Shelf>(
    file: &FileOf<'_, S>,
    place: usize,
    buffer: &'b mut [u8; CHUNK],
) -> LineText<'b>
    requires within { place < length (file_in (S.Shelf.meaning file.now.shelf.now) file.now.file) }
    requires fits { all_fit (split (drop place (file_in (S.Shelf.meaning file.now.shelf.now) file.now.file))) ≡ true }
    ensures { result.bytes.now ≡ first_line (drop place (file_in (S.Shelf.meaning file.now.shelf.now) file.now.file)) }
{
    let bytes = file.read(place, buffer);
    LineText {
        bytes: &bytes[0..line_length(bytes)],
    }
}

// How many bytes stand in front of the first line break, or in all where there is none.
fn line_length(bytes: &[u8]) -> usize
    ensures { result ≡ line_length bytes.now }
{
    bytes
        .iter()
        .position(|b| *b == LINE_BREAK)
        .unwrap_or(bytes.len())
}
