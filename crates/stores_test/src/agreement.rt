// Both stores beside a plain vector of lines, under calls drawn from a seeded generator.
use chain_store::ChainStore;
use gap_store::GapStore;
use lines::line::Tag;
use lines::store::LineStore;
use std::alloc::{AllocError, Global};
use std::process::Abort;
use std::test::Fail;

const CAPACITY: usize = 9;

const CALLS: usize = 3000;

#[derive(Drop)]
struct Plain {
    text: Vec<u8>,
    tag: Tag,
}

// Marsaglia's xorshift with 32 bits.
#[derive(Drop)]
struct Random {
    state: u32,
}

impl Random {
    fn next(&mut self) -> u32 {
        let mut x = self.state;
        x ^= x.wrapping_mul(1 << 13);
        x ^= x >> 17;
        x ^= x.wrapping_mul(1 << 5);
        self.state = x;
        x
    }

    fn below(&mut self, n: usize) -> usize {
        if n == 0 {
            return 0;
        }
        self.next() as usize % n
    }
}

#[test]
fn stores_agree_with_a_plain_vector(rt: HostRuntime) -> Result<(), Fail> {
    let heap = rt.alloc();
    let mut random = Random { state: 20240229 };
    let mut plain: Vec<Plain> = Vec::new(heap);
    let mut gap = GapStore::new(heap, CAPACITY)?;
    let mut chain = ChainStore::new(heap, CAPACITY)?;
    for _ in 0..CALLS {
        step(&rt, heap, &mut random, &mut plain, &mut gap, &mut chain)?;
        same(&rt, &plain, &gap)?;
        same(&rt, &plain, &chain)?;
    }
    Ok(())
}

// One call to all three: a line put in, removed or tagged, now and then where there is none.
fn step<A: LineStore, B: LineStore>(
    rt: &impl Abort,
    heap: Global,
    random: &mut Random,
    plain: &mut Vec<Plain>,
    a: &mut A,
    b: &mut B,
) -> Result<(), Fail> {
    let kind = random.below(5);
    let n = random.below(CAPACITY + 3);
    let tag = random.next() & 0x7ff_ffff;
    let count = plain.len();
    let there = 1 <= n && n <= count;
    match kind {
        0 | 1 => {
            let text = some_text(heap, random)?;
            let accepted = n <= count && count < CAPACITY;
            assert_eq!(rt; a.put(n, text.as_slice(), tag).is_ok(), accepted);
            assert_eq!(rt; b.put(n, text.as_slice(), tag).is_ok(), accepted);
            if accepted {
                plain.insert(n, Plain { text, tag })?;
            }
        },
        2 | 3 => {
            assert_eq!(rt; a.remove(n).is_ok(), there);
            assert_eq!(rt; b.remove(n).is_ok(), there);
            if there {
                let _ = plain.remove(n - 1);
            }
        },
        _ => {
            assert_eq!(rt; a.set_tag(n, tag).is_ok(), there);
            assert_eq!(rt; b.set_tag(n, tag).is_ok(), there);
            if there {
                plain[n - 1].tag = tag;
            }
        },
    }
    Ok(())
}

// A text of any length up to the longest, the short ones more often.
fn some_text(heap: Global, random: &mut Random) -> Result<Vec<u8>, AllocError> {
    let longest = if random.below(4) == 0 { 256 } else { 12 };
    let size = random.below(longest);
    let first = (random.next() & 15) as u8;
    (0..size)
        .map(|i| b'a' + (i & 7) as u8 + first)
        .collect(heap)
}

// A store holds the lines of the vector, and no others.
fn same<S: LineStore>(rt: &impl Abort, plain: &Vec<Plain>, store: &S) -> Result<(), Fail> {
    assert_eq!(rt; store.count(), plain.len());
    for (i, line) in plain.iter().enumerate() {
        let mut buffer = [0u8; 255];
        let size = store.copy(i + 1, &mut buffer)?;
        assert!(rt; size <= 255);
        assert_eq!(rt; &buffer[0..size], line.text.as_slice());
        assert_eq!(rt; store.tag(i + 1)?, line.tag);
    }
    Ok(())
}
