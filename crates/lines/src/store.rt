// The interface of a line store, by what the store means: its lines, numbered from 1, and its capacity.
ghost use Rattle.std.specs.Prelude.{◌≡◌, ℕ, length};
ghost use Rattle.lines.specs.Store.{Store, Sound, length_answer, tag_answer, copy_answer, copy_after, put_check, put_answer, put_after, remove_answer, remove_after, set_tag_answer, set_tag_after};

use crate::fault::StoreFault;
use crate::line::{Tag, fits_line, is_defined};

// The most lines that a store may be made for; the fewest is 1.
pub const CAPACITY_MAX: usize = 4096;

pub trait LineStore {
    ghost meaning: { Self → Store };

    fn count(&self) -> usize
        ensures { result ≡ length (meaning self.now).lines };

    fn capacity(&self) -> usize
        ensures { result ≡ (meaning self.now).capacity };

    // The length of the text of line `n`.
    fn length(&self, n: usize) -> Result<usize, StoreFault>
        ensures { result ≡ length_answer (meaning self.now) n };

    fn tag(&self, n: usize) -> Result<Tag, StoreFault>
        ensures { result ≡ tag_answer (meaning self.now) n };

    // Copies the text of line `n` to the start of `buffer`, and answers its length.
    fn copy(&self, n: usize, buffer: &mut [u8]) -> Result<usize, StoreFault>
        ensures value { result ≡ copy_answer (meaning self.now) n (length buffer.old) }
        ensures after { buffer.new ≡ copy_after (meaning self.now) n buffer.old };

    // Puts a line behind line `behind`, or in front of all where that is 0.
    fn put(&mut self, behind: usize, text: &[u8], tag: Tag) -> Result<(), StoreFault>
        ensures value { result ≡ put_answer (meaning self.old) behind text.now tag }
        ensures after { meaning self.new ≡ put_after (meaning self.old) behind text.now tag };

    fn remove(&mut self, n: usize) -> Result<(), StoreFault>
        ensures value { result ≡ remove_answer (meaning self.old) n }
        ensures after { meaning self.new ≡ remove_after (meaning self.old) n };

    fn set_tag(&mut self, n: usize, tag: Tag) -> Result<(), StoreFault>
        ensures value { result ≡ set_tag_answer (meaning self.old) n tag }
        ensures after { meaning self.new ≡ set_tag_after (meaning self.old) n tag };

    // What every store keeps: a capacity from 1 to 4,096, no more lines than that, and each a line.
    ghost sound: { (x : Self) → Sound (meaning x) };
}

// What a store with `count` lines answers to a line that is to go behind line `behind`. Every store
// refuses in this order.
pub fn check_put(
    count: usize,
    capacity: usize,
    behind: usize,
    text: &[u8],
    tag: Tag,
) -> Result<(), StoreFault>
    ensures { result ≡ put_check count capacity behind text.now tag }
{
    if behind > count || !is_defined(tag) {
        return Err(StoreFault::Outside);
    }
    if !fits_line(text) {
        return Err(StoreFault::BadText);
    }
    if count >= capacity {
        return Err(StoreFault::Full);
    }
    Ok(())
}
