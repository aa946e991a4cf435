// Which places of a line the items so far reach from a start.
ghost use Rattle.std.specs.Prelude.{◌≡◌, ◌+◌, ◌^◌, ◌<◌, ◌≤◌, ◌==◌};

mod steps;

pub use steps::{advance, clear};

// The places reached: `count` of those from `low` on and below `end`, which stands right behind the highest.
#[derive(Clone, Copy)]
pub struct Reach {
    pub low: usize,
    pub end: usize,
    pub count: usize,
    ghost some: { low < end },
    ghost few: { low + count ≤ end },
}

impl Reach {
    // One place by itself.
    pub fn at(place: usize) -> Reach
        requires { place < 2 ^ 63 }
        ensures low { result.low ≡ place }
        ensures end { result.end ≡ place + 1 }
        ensures count { result.count ≡ 1 }
    {
        Reach {
            low: place,
            end: place + 1,
            count: 1,
        }
    }

    // With a place that lies behind them all.
    fn with(self, place: usize) -> Reach
        requires behind { self.end ≤ place }
        requires fits { place < 2 ^ 63 }
        ensures low { result.low ≡ self.low }
        ensures end { result.end ≡ place + 1 }
        ensures count { result.count ≡ self.count + 1 }
    {
        Reach {
            low: self.low,
            end: place + 1,
            count: self.count + 1,
        }
    }

    // With this many places more right behind them.
    fn with_run(self, more: usize) -> Reach
        requires { self.end + more < 2 ^ 63 }
        ensures low { result.low ≡ self.low }
        ensures end { result.end ≡ self.end + more }
        ensures count { result.count ≡ self.count + more }
    {
        Reach {
            low: self.low,
            end: self.end + more,
            count: self.count + more,
        }
    }

    // Whether no place lies between them that is not reached.
    fn is_solid(self) -> bool
        ensures { result ≡ (self.low + self.count == self.end) }
    {
        self.low + self.count == self.end
    }
}
