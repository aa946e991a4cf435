// A range of lines of a text: from a first line to a last, of so many lines in all.
ghost use Rattle.std.specs.Prelude.{◌≡◌, ◌+◌, ◌-◌, ◌≤◌, true, false, MatchOption};
ghost use Rattle.ranges.specs.Bounds.{is_range};

// A range is never empty, and never passes the text's end. A command asks of its caller only that `count` is the number of
// the text's lines.
#[derive(Clone, Copy)]
pub struct Range {
    pub first: usize,
    pub last: usize,
    pub count: usize,
    ghost some: { 1 ≤ first },
    ghost order: { first ≤ last },
    ghost within: { last ≤ count },
}

impl Range {
    // The lines from `first` to `last` of a text of `count` lines, if there are such lines.
    pub fn new(first: usize, last: usize, count: usize) -> Option<Range>
        ensures { MatchOption result (is_range first last count ≡ false) (λ x. (is_range first last count ≡ true) × (x.first ≡ first) × (x.last ≡ last) × (x.count ≡ count)) }
    {
        if first >= 1 && first <= last && last <= count {
            return Some(Range { first, last, count });
        }
        None
    }

    // Line `n` alone.
    pub fn line(n: usize, count: usize) -> Range
        requires some { 1 ≤ n }
        requires within { n ≤ count }
        ensures { (result.first ≡ n) × ((result.last ≡ n) × (result.count ≡ count)) }
    {
        Range {
            first: n,
            last: n,
            count,
        }
    }

    // How many lines it has.
    pub fn size(self) -> usize
        ensures { result ≡ self.last + 1 - self.first }
    {
        self.last - self.first + 1
    }
}
