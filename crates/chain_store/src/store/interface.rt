// The chain store as a line store.
ghost use Rattle.chain_store.specs.Meaning.{meaning_of};
ghost use Rattle.chain_store.specs.Fields;

use super::ChainStore;
use lines::fault::StoreFault;
use lines::line::{Tag, is_defined};
use lines::store::{LineStore, check_put};

// Some bodies read as those of the other store: what two stores can share of a call stands with the trait, as `check_put`.
impl LineStore for ChainStore {
    ghost meaning = { meaning_of };

    ghost sound = { λ x. Fields.sound x };

    fn count(&self) -> usize {
        self.count
    }

    fn capacity(&self) -> usize {
        self.slots.len()
    }

    fn length(&self, n: usize) -> Result<usize, StoreFault> {
        let slot = self.slot(n).ok_or(StoreFault::Outside)?;
        Ok(slot.text().len())
    }

    fn tag(&self, n: usize) -> Result<Tag, StoreFault> {
        let slot = self.slot(n).ok_or(StoreFault::Outside)?;
        Ok(slot.tag)
    }

    fn copy(&self, n: usize, buffer: &mut [u8]) -> Result<usize, StoreFault> {
        let slot = self.slot(n).ok_or(StoreFault::Outside)?;
        let text = slot.text();
        let size = text.len();
        if size > buffer.len() {
            return Err(StoreFault::ShortBuffer);
        }
        buffer[0..size].copy_from_slice(text);
        Ok(size)
    }

    fn put(&mut self, behind: usize, text: &[u8], tag: Tag) -> Result<(), StoreFault> {
        check_put(self.count(), self.capacity(), behind, text, tag)?;
        self.put_line(behind, text, tag);
        Ok(())
    }

    fn remove(&mut self, n: usize) -> Result<(), StoreFault> {
        if n == 0 || n > self.count() {
            return Err(StoreFault::Outside);
        }
        self.remove_line(n);
        Ok(())
    }

    fn set_tag(&mut self, n: usize, tag: Tag) -> Result<(), StoreFault> {
        if n == 0 || n > self.count() || !is_defined(tag) {
            return Err(StoreFault::Outside);
        }
        self.tag_line(n, tag);
        Ok(())
    }
}
