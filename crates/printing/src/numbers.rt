// Numbers in decimal, each with a line break behind it.
ghost use Rattle.std.specs.Prelude.{◌≡◌, ◌+◌, ◌≤◌, [], ◌∷◌, ◌++◌, length};
ghost use Rattle.rules.specs.Printing.{numbered};
ghost use Rattle.printing.specs.Sheets.{written};

use crate::sheet::write_bytes;
use itoa::Buffer;
use lines::line::LINE_BREAK;

// How many bytes a number prints as, with its line break.
pub fn number_size(n: usize) -> usize
    ensures { result ≡ length (numbered n) }
{
    Buffer::new().format(n).len() + 1
}

// Prints a number with its line break at a place of a sheet that has room for it.
#[tactic(auto, using(crate::proofs::Digits::size_is))]
pub fn print_number(n: usize, sheet: &mut [u8], at: usize)
    requires { at + length (numbered n) ≤ length sheet.old }
    ensures { sheet.new ≡ written sheet.old at (numbered n) }
{
    let mut buffer = Buffer::new();
    let digits = buffer.format(n).as_bytes();
    print_sized(digits, digits.len() + 1, sheet, at);
}

// Prints digits that are known to take `size` bytes with their break, which is the last of these.
fn print_sized(digits: &[u8], size: usize, sheet: &mut [u8], at: usize)
    requires size { size ≡ length digits.now + 1 }
    requires room { at + size ≤ length sheet.old }
    ensures { sheet.new ≡ written sheet.old at (digits.now ++ (10 ∷ [])) }
{
    write_bytes(sheet, at, digits);
    sheet[at + size - 1] = LINE_BREAK;
}
