// What the next line is taken for.
use crate::gathered::Gathered;

#[derive(Clone, Copy)]
pub enum Mode {
    Commands,
    // The lines so far of one command, joined; the last ended in an odd number of `\`.
    Gathering(Gathered),
    // Lines go into the text until a `.` by itself.
    Typing {
        // The current line from before the `a`.
        before: usize,
        // Whether a line has gone in since.
        any: bool,
    },
    Ended,
}
