// The chain store: slots, and links that chain their numbers.
ghost use Rattle.std.specs.Prelude.{◌≡◌, ◌+◌, ◌≤◌, length, slice_index};
ghost use Rattle.chain_store.specs.Chain.{chain, Within, Apart};

use crate::slot::Slot;

mod changing;
mod creating;
mod finding;
mod interface;

// The number behind the lines, which the free slots follow.
const FREE: usize = 1;

// How many numbers are no slot's: slot i has the number i + ANCHORS.
const ANCHORS: usize = 2;

// One chain goes through all numbers: from 0 through the slots of the lines, in order, to FREE, and on through the
// free slots. So the first line and the first free slot have a number in front of them as every other has.
// Links and slots lie beside each other, and not in one list, since 0 and FREE are numbers of no slot.
#[derive(Drop)]
pub struct ChainStore {
    links: Vec<u16>,
    slots: Vec<Slot>,
    count: usize,
    ghost some: { 1 ≤ length slots.items },
    ghost bounded: { length slots.items ≤ 4096 },
    ghost long: { length links.items ≡ length slots.items + 2 },
    ghost room: { count ≤ length slots.items },
    ghost within: { Within links.items },
    ghost apart: { Apart (chain links.items) },
    ghost parted: { slice_index (chain links.items) (count + 1) ≡ 1 },
}
