// Making a chain store.
ghost use Rattle.lines.specs.Making.{Made};
ghost use Rattle.chain_store.specs.Meaning.{meaning_of};

use super::{ANCHORS, ChainStore};
use crate::links::in_order;
use crate::slot::Slot;
use lines::store::CAPACITY_MAX;
use making::MakeFault;
use std::alloc::Global;

impl ChainStore {
    // An empty store for `capacity` lines. All its memory is taken here.
    pub fn new(heap: Global, capacity: usize) -> Result<ChainStore, MakeFault>
        ensures { Made meaning_of capacity result }
    {
        if capacity == 0 || capacity > CAPACITY_MAX {
            return Err(MakeFault::Capacity);
        }
        // In order, the chain begins with 0 and FREE: there is no line between.
        let links = in_order(heap, (capacity + ANCHORS) as u16)?;
        let slots = Vec::from_elem(heap, Slot::vacant(), capacity)?;
        Ok(ChainStore {
            links,
            slots,
            count: 0,
        })
    }
}
