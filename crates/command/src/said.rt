// What a command line says, as values. Parts of patterns, replacements, names and lists are pieces of the line itself.
use crate::mark::Mark;

// What an address counts from.
#[derive(Clone, Copy)]
pub enum Base<'a> {
    AtCurrent,
    AtLast,
    AtNumber(u16),
    AtMark(Mark),
    // The next line that matches the pattern between two `/`.
    AtMatch(&'a [u8]),
}

// A base and the sums of what is added to it and taken from it.
#[derive(Clone, Copy)]
pub struct Address<'a> {
    pub base: Base<'a>,
    pub ahead: u32,
    pub back: u32,
}

// The addresses in front of a command.
#[derive(Clone, Copy)]
pub enum Addresses<'a> {
    NoAddress,
    OneAddress(Address<'a>),
    TwoAddresses(Address<'a>, Address<'a>),
}

// A pattern as it is spelled: the bytes between its delimiters.
#[derive(Clone, Copy)]
pub struct Sought<'a> {
    pub delimiter: u8,
    pub part: &'a [u8],
}

// The file that a command means.
#[derive(Clone, Copy)]
pub enum FileName<'a> {
    Remembered,
    Given(&'a [u8]),
}

#[derive(Clone, Copy)]
pub struct Substitution<'a> {
    pub sought: Sought<'a>,
    pub replacement: &'a [u8],
    // Every match of a line, and not only the first.
    pub all: bool,
    pub print: bool,
}

// What the list of a global may hold too.
#[derive(Clone, Copy)]
pub enum Action<'a> {
    DeleteLines,
    MarkLine(Mark),
    MoveLines(Address<'a>),
    PrintLines,
    // The empty command.
    PrintNext,
    PrintNumber,
    Substitute(Substitution<'a>),
    WriteFile(FileName<'a>),
}

// The lines that a global chooses.
#[derive(Clone, Copy)]
pub enum Chooser<'a> {
    Matching(Sought<'a>),
    Lacking(Sought<'a>),
}

#[derive(Clone, Copy)]
pub enum Command<'a> {
    Act(Action<'a>),
    AppendText,
    EditFile(FileName<'a>),
    QuitSession,
    UndoChange,
    // The chosen lines, and the list that each has its turn with.
    Global(Chooser<'a>, &'a [u8]),
}

#[derive(Clone, Copy)]
pub struct Said<'a> {
    pub addresses: Addresses<'a>,
    pub command: Command<'a>,
}
