// Making a gap store.
ghost use Rattle.lines.specs.Making.{Made};
ghost use Rattle.gap_store.specs.Meaning.{meaning_of};

use super::GapStore;
use crate::gapped::Gapped;
use crate::row::Row;
use lines::line::LINE_MAX;
use lines::store::CAPACITY_MAX;
use making::MakeFault;
use std::alloc::Global;

impl GapStore {
    // An empty store for `capacity` lines. All its memory is taken here.
    pub fn new(heap: Global, capacity: usize) -> Result<GapStore, MakeFault>
        ensures { Made meaning_of capacity result }
    {
        if capacity == 0 || capacity > CAPACITY_MAX {
            return Err(MakeFault::Capacity);
        }
        let row = Row {
            start: 0,
            len: 0,
            tag: 0,
        };
        let rows = Vec::from_elem(heap, row, capacity)?;
        let bytes = Vec::from_elem(heap, 0, capacity * LINE_MAX)?;
        Ok(GapStore {
            rows: Gapped::new(rows),
            bytes: Gapped::new(bytes),
        })
    }
}
