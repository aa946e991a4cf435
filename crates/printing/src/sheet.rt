// Bytes written onto a sheet.
ghost use Rattle.std.specs.Prelude.{◌≡◌, ◌+◌, ◌≤◌, length};
ghost use Rattle.printing.specs.Sheets.{written};

// The bytes of a sheet that are held back, so that a refusal can always be said.
pub const HELD_BACK: usize = 16;

// Writes bytes at a place of a sheet that has room for them.
pub fn write_bytes(sheet: &mut [u8], at: usize, bytes: &[u8])
    requires { at + length bytes.now ≤ length sheet.old }
    ensures { sheet.new ≡ written sheet.old at bytes.now }
{
    sheet[at..at + bytes.len()].copy_from_slice(bytes);
}
