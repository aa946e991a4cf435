// Counting the lines of some bytes.
ghost use Rattle.std.specs.Prelude.{◌≡◌, ◌+◌, ◌^◌, ◌<◌, length};
ghost use Rattle.filing.specs.Counting.{uncounted, byte_counted, counted, lines_of, fits_of};

use lines::line::{LINE_BREAK, LINE_MAX};

// The lines that have ended, how many bytes the line that has not yet ended has, and whether all that ended fit a text.
#[derive(Clone, Copy)]
pub(crate) struct Count {
    pub(crate) ended: usize,
    pub(crate) pending: usize,
    pub(crate) fits: bool,
}

impl Count {
    // Of no bytes.
    pub(crate) fn none() -> Count
        ensures { result ≡ uncounted }
    {
        Count {
            ended: 0,
            pending: 0,
            fits: true,
        }
    }

    // With some bytes more.
    pub(crate) fn with_bytes(self, bytes: &[u8]) -> Count
        requires ended { self.ended + length bytes.now < 2 ^ 64 }
        requires pending { self.pending + length bytes.now < 2 ^ 64 }
        ensures { result ≡ counted self bytes.now }
    {
        let mut sum = self;
        for b in bytes {
            sum = sum.with_byte(*b);
        }
        sum
    }

    // With one byte more.
    fn with_byte(self, byte: u8) -> Count
        requires ended { self.ended + 1 < 2 ^ 64 }
        requires pending { self.pending + 1 < 2 ^ 64 }
        ensures { result ≡ byte_counted self byte }
    {
        if byte == LINE_BREAK {
            return Count {
                ended: self.ended + 1,
                pending: 0,
                fits: self.all_fit(),
            };
        }
        Count {
            pending: self.pending + 1,
            ..self
        }
    }

    // How many lines there are; what stands behind the last line break is one too.
    pub(crate) fn lines(self) -> usize
        requires { self.ended + 1 < 2 ^ 64 }
        ensures { result ≡ lines_of self }
    {
        if self.pending > 0 {
            return self.ended + 1;
        }
        self.ended
    }

    // Whether every line fits a text.
    pub(crate) fn all_fit(self) -> bool
        ensures { result ≡ fits_of self }
    {
        self.fits && self.pending <= LINE_MAX
    }
}
