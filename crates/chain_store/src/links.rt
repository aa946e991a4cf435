// The table of links: numbers in a chain, each with the number that follows it.
ghost use Rattle.std.specs.Prelude.{◌≡◌, ◌-◌, ◌<◌, ◌≤◌, length, IfOk, slice_index};
ghost use Rattle.chain_store.specs.Chain.{chain, in_order, relinked, Within};

use std::alloc::{AllocError, Global};

// The number that the chain begins with.
const START: usize = 0;

// A table of `count` numbers from 0 on, in which each is followed by the next one, and the last by 0.
pub fn in_order(heap: Global, count: u16) -> Result<Vec<u16>, AllocError>
    requires { 1 ≤ count }
    ensures { IfOk result (λ v. v.items ≡ in_order (count - 1)) }
{
    let mut links = Vec::with_capacity(heap, count as usize)?;
    links.extend(1..count)?;
    links.push(0)?;
    Ok(links)
}

// The number at place `n` of the chain, by as many steps.
pub fn walk(links: &[u16], n: usize) -> usize
    requires within { Within links.now }
    requires inside { n < length links.now }
    ensures value { result ≡ slice_index (chain links.now) n }
    ensures bound { result < length links.now }
{
    let mut at = START;
    for _ in 0..n {
        at = links[at] as usize;
    }
    at
}

// Takes the number that follows `p` out of the chain, and puts it in behind `q`.
pub fn relink(links: &mut [u16], p: usize, q: usize)
    requires within { Within links.old }
    requires from { p < length links.old }
    requires to { q < length links.old }
    ensures { links.new ≡ relinked links.old p q }
{
    let moved = links[p];
    links[p] = links[moved as usize];
    links[moved as usize] = links[q];
    links[q] = moved;
}
