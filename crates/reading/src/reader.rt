// What is left of a command line. Each method reads what stands at the front, and leaves what stands behind it; behind a fault
// nothing more is read.
ghost use Rattle.std.specs.Prelude.{◌≡◌, ◌≤◌, length};

mod address;
mod addresses;
mod commands;
mod name;
mod number;
mod part;

#[derive(Drop)]
pub(crate) struct Reader<'a> {
    rest: &'a [u8],
    ghost few: { length rest.now ≤ 1000 },
}

impl<'a> Reader<'a> {
    pub(crate) fn new(line: &'a [u8]) -> Reader<'a>
        requires { length line.now ≤ 1000 }
        ensures { result.rest.now ≡ line.now }
    {
        Reader { rest: line }
    }
}
