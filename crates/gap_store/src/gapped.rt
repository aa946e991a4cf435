// A vector with a gap in it, of rows or of bytes, and what is done at the gap.
ghost use Rattle.std.specs.Prelude.{◌≡◌, ◌+◌, ◌-◌, ◌<◌, ◌≤◌, length, slice_set};
ghost use Rattle.gap_store.specs.Gaps.{held, overwritten, place};

use shift::shift;

// The elements from `start` up to `end` are the gap: free, and of no meaning. What is held is the others.
#[derive(Drop)]
pub struct Gapped<X> {
    pub all: Vec<X>,
    pub start: usize,
    pub end: usize,
    ghost order: { start ≤ end },
    ghost last: { end ≤ length all.items },
}

impl<X> Gapped<X> {
    // A vector that is all gap.
    pub fn new(all: Vec<X>) -> Gapped<X>
        ensures all { result.all ≡ all }
        ensures start { result.start ≡ 0 }
        ensures end { result.end ≡ length all.items }
    {
        let end = all.len();
        Gapped { all, start: 0, end }
    }

    // How many elements are held.
    pub fn count(&self) -> usize
        ensures { result ≡ self.now.start + (length self.now.all.items - self.now.end) }
    {
        self.start + (self.all.len() - self.end)
    }

    // The place of the element that is held as the `n`-th.
    pub fn place(&self, n: usize) -> usize
        requires { (1 ≤ n) × (n ≤ self.now.start + (length self.now.all.items - self.now.end)) }
        ensures value { result ≡ place self.now.start self.now.end n }
        ensures within { result < length self.now.all.items }
    {
        if n <= self.start {
            n - 1
        } else {
            n - 1 - self.start + self.end
        }
    }

    // Takes the elements out that are held between `at` and the gap.
    pub fn take_out(&mut self, at: usize)
        requires { at ≤ self.old.start }
        ensures all { self.new.all ≡ self.old.all }
        ensures start { self.new.start ≡ at }
        ensures end { self.new.end ≡ self.old.end }
    {
        self.start = at;
    }
}

impl<X: Copy> Gapped<X> {
    // Moves the gap so that it starts at `at`, with the elements between in one block. What is held stays.
    pub fn slide(&mut self, at: usize)
        requires { at ≤ self.old.start + (length self.old.all.items - self.old.end) }
        ensures start { self.new.start ≡ at }
        ensures end { self.new.end ≡ at + (self.old.end - self.old.start) }
        ensures len { length self.new.all.items ≡ length self.old.all.items }
        ensures same { held self.new.all.items at (at + (self.old.end - self.old.start)) ≡ held self.old.all.items self.old.start self.old.end }
    {
        let width = self.end - self.start;
        move_gap(&mut self.all, self.start, self.end, at);
        self.start = at;
        self.end = at + width;
    }

    // Writes an element over the one at place `i`.
    pub fn write(&mut self, i: usize, x: X)
        requires { i < length self.old.all.items }
        ensures all { self.new.all.items ≡ slice_set self.old.all.items i x }
        ensures start { self.new.start ≡ self.old.start }
        ensures end { self.new.end ≡ self.old.end }
    {
        self.all[i] = x;
    }

    // Puts elements in at the gap, in front of it.
    pub fn put(&mut self, xs: &[X])
        requires { self.old.start + length xs.now ≤ self.old.end }
        ensures all { self.new.all.items ≡ overwritten self.old.all.items self.old.start xs.now }
        ensures start { self.new.start ≡ self.old.start + length xs.now }
        ensures end { self.new.end ≡ self.old.end }
    {
        let start = self.start;
        let stop = start + xs.len();
        self.all[start..stop].copy_from_slice(xs);
        self.start = stop;
    }
}

// Moves the gap from `start` to `end` so that it starts at `at`.
fn move_gap<X: Copy>(xs: &mut [X], start: usize, end: usize, at: usize)
    requires order { start ≤ end }
    requires last { end ≤ length xs.old }
    requires within { at ≤ start + (length xs.old - end) }
    ensures { held xs.new at (at + (end - start)) ≡ held xs.old start end }
{
    if at < start {
        let _ = shift(xs, at, at + (end - start), start - at);
    } else {
        let _ = shift(xs, end, start, at - start);
    }
}
