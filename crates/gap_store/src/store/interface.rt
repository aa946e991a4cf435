// The gap store as a line store: each call in terms of what stands at the gap.
ghost use Rattle.gap_store.specs.Meaning.{meaning_of};
ghost use Rattle.std.proofs.Common.{arith};
ghost use Rattle.gap_store.specs.Stored.{count_of};

use super::GapStore;
use lines::fault::StoreFault;
use lines::line::{Tag, is_defined};
use lines::store::{LineStore, check_put};

impl LineStore for GapStore {
    ghost meaning = { meaning_of };

    ghost sound = { unfold meaning_of in
        λ x.
        let count = count_of x in
        let order = x.rows.order in
        let last = x.rows.last in
        record { some = x.some; bounded = x.bounded; room = omega arith; each = x.each } };

    fn count(&self) -> usize {
        self.lines()
    }

    fn capacity(&self) -> usize {
        self.most_lines()
    }

    fn length(&self, n: usize) -> Result<usize, StoreFault> {
        let row = self.find(n).ok_or(StoreFault::Outside)?;
        Ok(row.len as usize)
    }

    fn tag(&self, n: usize) -> Result<Tag, StoreFault> {
        let row = self.find(n).ok_or(StoreFault::Outside)?;
        Ok(row.tag)
    }

    fn copy(&self, n: usize, buffer: &mut [u8]) -> Result<usize, StoreFault> {
        let row = self.find(n).ok_or(StoreFault::Outside)?;
        let size = row.len as usize;
        if size > buffer.len() {
            return Err(StoreFault::ShortBuffer);
        }
        let start = row.start;
        let stop = start + size;
        buffer[0..size].copy_from_slice(&self.bytes.all[start..stop]);
        Ok(size)
    }

    fn put(&mut self, behind: usize, text: &[u8], tag: Tag) -> Result<(), StoreFault> {
        check_put(self.count(), self.capacity(), behind, text, tag)?;
        self.bring(behind);
        self.put_at_gap(text, tag);
        Ok(())
    }

    fn remove(&mut self, n: usize) -> Result<(), StoreFault> {
        if n == 0 || n > self.count() {
            return Err(StoreFault::Outside);
        }
        self.bring(n);
        self.remove_at_gap();
        Ok(())
    }

    fn set_tag(&mut self, n: usize, tag: Tag) -> Result<(), StoreFault> {
        if n == 0 || n > self.count() || !is_defined(tag) {
            return Err(StoreFault::Outside);
        }
        self.retag(n, tag);
        Ok(())
    }
}
