// The tables of calls, run over each store.
use crate::calls::{Call, one, run};
use chain_store::ChainStore;
use gap_store::GapStore;
use lines::fault::StoreFault;
use lines::line::{CHOSEN, Tag, UNDEFINED};
use lines::store::LineStore;
use making::MakeFault;
use std::process::Abort;
use std::test::Fail;

const ALL_BITS: Tag = UNDEFINED - 1;

// A store of one line: full with it, and empty again without it.
const SINGLE: [Call; 24] = [
    Call::Capacity(1),
    Call::Count(0),
    Call::Length(0, Err(StoreFault::Outside)),
    Call::Length(1, Err(StoreFault::Outside)),
    Call::TagOf(1, Err(StoreFault::Outside)),
    Call::Copy(1, 300, Err(StoreFault::Outside)),
    Call::Remove(1, Err(StoreFault::Outside)),
    Call::SetTag(1, 0, Err(StoreFault::Outside)),
    Call::Put(1, b"x", 0, Err(StoreFault::Outside)),
    Call::Put(0, b"door 7", 5, Ok(())),
    Call::Count(1),
    Call::Length(1, Ok(6)),
    Call::TagOf(1, Ok(5)),
    Call::Copy(1, 6, Ok(b"door 7")),
    Call::Copy(1, 5, Err(StoreFault::ShortBuffer)),
    Call::Put(0, b"y", 0, Err(StoreFault::Full)),
    Call::Put(1, b"y", 0, Err(StoreFault::Full)),
    Call::Put(2, b"y", 0, Err(StoreFault::Outside)),
    Call::SetTag(1, ALL_BITS, Ok(())),
    Call::TagOf(1, Ok(ALL_BITS)),
    Call::Remove(2, Err(StoreFault::Outside)),
    Call::Remove(0, Err(StoreFault::Outside)),
    Call::Remove(1, Ok(())),
    Call::Count(0),
];

const EMPTY: [u8; 0] = [];

const LONGEST: [u8; 255] = [b'm'; 255];

const TOO_LONG: [u8; 256] = [b'm'; 256];

// Every bound on a text and on a tag, and the order of the refusals: 30, then 61, then 60.
const BOUNDS: [Call; 34] = [
    Call::Capacity(2),
    Call::Put(0, &EMPTY, 0, Ok(())),
    Call::Put(1, &TOO_LONG, 0, Err(StoreFault::BadText)),
    Call::Put(1, b"\nab", 0, Err(StoreFault::BadText)),
    Call::Put(1, b"a\nb", 0, Err(StoreFault::BadText)),
    Call::Put(1, b"ab\n", 0, Err(StoreFault::BadText)),
    Call::Put(1, b"ab", UNDEFINED, Err(StoreFault::Outside)),
    Call::Put(1, b"ab", 1 << 31, Err(StoreFault::Outside)),
    Call::Put(1, &TOO_LONG, UNDEFINED, Err(StoreFault::Outside)),
    Call::Put(2, b"a\nb", 0, Err(StoreFault::Outside)),
    Call::Count(1),
    Call::Put(0, &LONGEST, CHOSEN, Ok(())),
    Call::Count(2),
    Call::Put(2, b"ab", 0, Err(StoreFault::Full)),
    Call::Put(2, b"a\nb", 0, Err(StoreFault::BadText)),
    Call::Put(3, b"ab", 0, Err(StoreFault::Outside)),
    Call::Length(1, Ok(255)),
    Call::Length(2, Ok(0)),
    Call::Length(3, Err(StoreFault::Outside)),
    Call::TagOf(1, Ok(CHOSEN)),
    Call::TagOf(2, Ok(0)),
    Call::TagOf(0, Err(StoreFault::Outside)),
    Call::Copy(1, 254, Err(StoreFault::ShortBuffer)),
    Call::Copy(1, 255, Ok(&LONGEST)),
    Call::Copy(1, 300, Ok(&LONGEST)),
    Call::Copy(2, 0, Ok(&EMPTY)),
    Call::Copy(3, 300, Err(StoreFault::Outside)),
    Call::SetTag(2, UNDEFINED, Err(StoreFault::Outside)),
    Call::SetTag(3, 1, Err(StoreFault::Outside)),
    Call::SetTag(2, ALL_BITS, Ok(())),
    Call::TagOf(2, Ok(ALL_BITS)),
    Call::TagOf(1, Ok(CHOSEN)),
    Call::Remove(3, Err(StoreFault::Outside)),
    Call::Count(2),
];

// Lines put in and removed in front, behind and between, with their tags moved along.
const ORDER: [Call; 30] = [
    Call::Put(0, b"c", 4, Ok(())),
    Call::Put(0, b"a", 1, Ok(())),
    Call::Put(1, b"bb", 2, Ok(())),
    Call::Put(3, b"dddd", 8, Ok(())),
    Call::Count(4),
    Call::Copy(1, 9, Ok(b"a")),
    Call::Copy(2, 9, Ok(b"bb")),
    Call::Copy(3, 9, Ok(b"c")),
    Call::Copy(4, 9, Ok(b"dddd")),
    Call::TagOf(1, Ok(1)),
    Call::TagOf(2, Ok(2)),
    Call::TagOf(3, Ok(4)),
    Call::TagOf(4, Ok(8)),
    Call::Remove(2, Ok(())),
    Call::Copy(2, 9, Ok(b"c")),
    Call::TagOf(2, Ok(4)),
    Call::Copy(3, 9, Ok(b"dddd")),
    Call::TagOf(3, Ok(8)),
    Call::Put(3, b"eee", 16, Ok(())),
    Call::Remove(1, Ok(())),
    Call::SetTag(2, 32, Ok(())),
    Call::Put(0, b"", 64, Ok(())),
    Call::Copy(1, 9, Ok(b"")),
    Call::Copy(2, 9, Ok(b"c")),
    Call::Copy(3, 9, Ok(b"dddd")),
    Call::Copy(4, 9, Ok(b"eee")),
    Call::TagOf(1, Ok(64)),
    Call::TagOf(3, Ok(32)),
    Call::TagOf(4, Ok(16)),
    Call::Count(4),
];

// A store of the greatest capacity, filled to the last line and emptied again.
fn fill<S: LineStore>(rt: &impl Abort, store: &mut S) {
    for n in 0..4096usize {
        one(rt, store, Call::Put(n, &LONGEST, (n % 27) as Tag, Ok(())));
    }
    one(rt, store, Call::Put(4096, b"x", 0, Err(StoreFault::Full)));
    one(
        rt,
        store,
        Call::Put(4097, b"x", 0, Err(StoreFault::Outside)),
    );
    one(rt, store, Call::Copy(4096, 255, Ok(&LONGEST)));
    one(rt, store, Call::TagOf(2, Ok(1)));
    one(rt, store, Call::TagOf(4096, Ok(18)));
    one(rt, store, Call::Remove(1, Ok(())));
    one(rt, store, Call::Put(4095, b"last", 0, Ok(())));
    one(rt, store, Call::Copy(4096, 255, Ok(b"last")));
    for _ in 0..4096usize {
        one(rt, store, Call::Remove(1, Ok(())));
    }
    one(rt, store, Call::Count(0));
}

#[test]
fn a_single_line(rt: HostRuntime) -> Result<(), Fail> {
    run(&rt, &mut GapStore::new(rt.alloc(), 1)?, &SINGLE);
    run(&rt, &mut ChainStore::new(rt.alloc(), 1)?, &SINGLE);
    Ok(())
}

#[test]
fn bounds(rt: HostRuntime) -> Result<(), Fail> {
    run(&rt, &mut GapStore::new(rt.alloc(), 2)?, &BOUNDS);
    run(&rt, &mut ChainStore::new(rt.alloc(), 2)?, &BOUNDS);
    Ok(())
}

#[test]
fn order(rt: HostRuntime) -> Result<(), Fail> {
    run(&rt, &mut GapStore::new(rt.alloc(), 4)?, &ORDER);
    run(&rt, &mut ChainStore::new(rt.alloc(), 4)?, &ORDER);
    Ok(())
}

#[test]
fn four_thousand_lines(rt: HostRuntime) -> Result<(), Fail> {
    fill(&rt, &mut GapStore::new(rt.alloc(), 4096)?);
    fill(&rt, &mut ChainStore::new(rt.alloc(), 4096)?);
    Ok(())
}

// Capacities from 1 to 4,096 are made, others refused.
#[test]
fn capacities(rt: HostRuntime) {
    for wrong in [0, 4097, usize::MAX] {
        assert_eq!(rt;
            made(GapStore::new(rt.alloc(), wrong)),
            Err(MakeFault::Capacity)
        );
        assert_eq!(rt;
            made(ChainStore::new(rt.alloc(), wrong)),
            Err(MakeFault::Capacity)
        );
    }
    for right in [1, 2, 4096] {
        assert_eq!(rt; made(GapStore::new(rt.alloc(), right)), Ok((0, right)));
        assert_eq!(rt; made(ChainStore::new(rt.alloc(), right)), Ok((0, right)));
    }
}

// The count and the capacity of a store that was made.
fn made<S: LineStore + Drop>(store: Result<S, MakeFault>) -> Result<(usize, usize), MakeFault> {
    store.map(|s| (s.count(), s.capacity()))
}
