// A place in the lines that a text becomes. That it lies in that text is the invariant of a `Spelling`, which holds both; here it would
// want the length a second time.

#[derive(Clone, Copy)]
pub struct Cursor<'a> {
    // What is left of the replacement of a match.
    pub bits: &'a [u8],
    // The bytes of that match.
    pub run: &'a [u8],
    // The place up to which the text is used up.
    pub at: usize,
    // The place from which the next match is sought.
    pub from: usize,
    // The end of the last match.
    pub last: Option<usize>,
    // How many searches may follow.
    pub searches: usize,
}

// What comes next of a line.
#[derive(Clone, Copy)]
pub enum Token<'a> {
    Run(&'a [u8]),
    Byte(u8),
    // The end of a line that has one behind it.
    Break,
}

// A token, and the place behind it: none behind the end of the last line.
#[derive(Clone, Copy)]
pub struct Step<'a> {
    pub token: Token<'a>,
    pub next: Option<Cursor<'a>>,
}
