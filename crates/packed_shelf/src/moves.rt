// Moving files within the memory, and their rows within the directory. No shift here passes an end, so
// none is refused.
ghost use Rattle.std.specs.Prelude.{◌≡◌, ◌+◌, ◌<◌, ◌≤◌, length};
ghost use Rattle.packed_shelf.specs.Moves.{rows_emptied, bytes_emptied, rows_lengthened, bytes_lengthened};
ghost use Rattle.packed_shelf.specs.Rows.{total};

use crate::row::Row;
use crate::rows::start_of;
use shift::shift;

// Empties the file of the row at `place`: those behind it close up, and its row becomes the last one, so
// that a file just emptied grows with no byte moved.
pub fn empty_file(rows: &mut [Row], bytes: &mut [u8], place: usize)
    requires within { place < length rows.old }
    requires fits { total rows.old ≤ length bytes.old }
    requires bounded { length bytes.old ≤ 1048576 }
    ensures rows { rows.new ≡ rows_emptied rows.old place }
    ensures bytes { bytes.new ≡ bytes_emptied rows.old place bytes.old }
{
    let row = rows[place];
    let count = rows.len();
    let start = start_of(rows, place);
    let end = start_of(rows, place + 1);
    let used = start_of(rows, count);
    let _ = shift(bytes, end, start, used - end);
    let _ = shift(rows, place + 1, place, count - 1 - place);
    rows[count - 1] = Row { size: 0, ..row };
}

// Puts bytes at the end of the file of the row at `place`; the files behind it make room.
pub fn lengthen_file(rows: &mut [Row], bytes: &mut [u8], place: usize, more: &[u8])
    requires within { place < length rows.old }
    requires fits { total rows.old + length more.now ≤ length bytes.old }
    requires bounded { length bytes.old ≤ 1048576 }
    ensures rows { rows.new ≡ rows_lengthened rows.old place (length more.now) }
    ensures bytes { bytes.new ≡ bytes_lengthened rows.old place bytes.old more.now }
{
    let row = rows[place];
    let count = more.len();
    let end = start_of(rows, place + 1);
    let used = start_of(rows, rows.len());
    let _ = shift(bytes, end, end + count, used - end);
    bytes[end..end + count].copy_from_slice(more);
    rows[place] = Row {
        size: row.size + count,
        ..row
    };
}
