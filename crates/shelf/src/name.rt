// What a file may be called.
ghost use Rattle.std.specs.Prelude.{◌≡◌};
ghost use Rattle.shelf.specs.Name.{all_graphic, is_name, begins};

// The longest name of a file, in bytes.
pub const NAME_MAX: usize = 24;

// Whether a file may have this name.
pub fn is_name(name: &[u8]) -> bool
    ensures { result ≡ is_name name.now }
{
    !name.is_empty() && name.len() <= NAME_MAX && all_graphic(name)
}

// Whether a name begins with these bytes.
pub fn begins_with(name: &[u8], prefix: &[u8]) -> bool
    ensures { result ≡ begins prefix.now name.now }
{
    name.starts_with(prefix)
}

// Whether each byte prints as a mark on paper: no space, no control.
fn all_graphic(name: &[u8]) -> bool
    ensures { result ≡ all_graphic name.now }
{
    name.iter().all(u8::is_ascii_graphic)
}
