// What is left of a pattern's bytes. Each method reads what stands at the front, and leaves what stands behind it; behind a
// fault nothing more is read.
ghost use Rattle.std.specs.Prelude.{◌≡◌};

mod brackets;
mod items;
mod member;

#[derive(Drop)]
pub(super) struct Reader<'a> {
    rest: &'a [u8],
}

impl<'a> Reader<'a> {
    pub(super) fn new(bytes: &'a [u8]) -> Reader<'a>
        ensures { result.rest.now ≡ bytes.now }
    {
        Reader { rest: bytes }
    }
}
