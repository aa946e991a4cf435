// Questions about the directory's rows.
ghost use Rattle.std.specs.Prelude.{◌≡◌, ◌≤◌, length, take, MatchOption};
ghost use Rattle.packed_shelf.specs.Rows.{total, bearing, Placed, Called, NoneCalled};

use crate::row::Row;

// How many bytes the files of the first `n` rows take up: that is where the next file starts.
pub fn start_of(rows: &[Row], n: usize) -> usize
    requires within { n ≤ length rows.now }
    requires bounded { total rows.now ≤ 1048576 }
    ensures { result ≡ total (take n rows.now) }
{
    rows[0..n].iter().map(|row| row.size).sum()
}

// The place of the row with this number.
pub fn place_of(rows: &[Row], number: usize) -> Option<usize>
    ensures { MatchOption result (bearing number rows.now ≡ 0) (λ p. Placed rows.now number p) }
{
    rows.iter().position(|row| row.number == number)
}

// The place of the row with this name.
pub fn place_called(rows: &[Row], name: &[u8]) -> Option<usize>
    ensures { MatchOption result (NoneCalled rows.now name.now) (λ p. Called rows.now name.now p) }
{
    rows.iter().position(|row| row.name.text() == name)
}
