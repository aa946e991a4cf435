// What a search answers, and why it refuses. The number is the refusal's.

// Where a match starts, and where it ends: the place behind its last byte.
#[derive(Clone, Copy, Debug, PartialEq)]
pub struct Match {
    pub start: usize,
    pub end: usize,
}

#[derive(Clone, Copy, Debug, PartialEq)]
pub enum MatchFault {
    LongLine = 61,
}
