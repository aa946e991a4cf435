// One call of a line store with the answer that it must give, and running a list of them.
use lines::fault::StoreFault;
use lines::line::Tag;
use lines::store::LineStore;
use std::process::Abort;

#[derive(Clone, Copy)]
pub enum Call<'a> {
    Count(usize),
    Capacity(usize),
    Length(usize, Result<usize, StoreFault>),
    TagOf(usize, Result<Tag, StoreFault>),
    // A copy of a line into a buffer of so many bytes.
    Copy(usize, usize, Result<&'a [u8], StoreFault>),
    Put(usize, &'a [u8], Tag, Result<(), StoreFault>),
    Remove(usize, Result<(), StoreFault>),
    SetTag(usize, Tag, Result<(), StoreFault>),
}

// What stands in a buffer before a copy.
const UNTOUCHED: u8 = 0xee;

const BUFFER: usize = 300;

pub(crate) fn run<S: LineStore>(rt: &impl Abort, store: &mut S, calls: &[Call]) {
    for call in calls {
        one(rt, store, *call);
    }
}

pub(crate) fn one<S: LineStore>(rt: &impl Abort, store: &mut S, call: Call) {
    match call {
        Call::Count(n) => assert_eq!(rt; store.count(), n),
        Call::Capacity(n) => assert_eq!(rt; store.capacity(), n),
        Call::Length(n, answer) => assert_eq!(rt; store.length(n), answer),
        Call::TagOf(n, answer) => assert_eq!(rt; store.tag(n), answer),
        Call::Copy(n, room, answer) => copy(rt, store, n, room, answer),
        Call::Put(behind, text, tag, answer) => assert_eq!(rt;
            store.put(behind, text, tag),
            answer
        ),
        Call::Remove(n, answer) => assert_eq!(rt; store.remove(n), answer),
        Call::SetTag(n, tag, answer) => assert_eq!(rt; store.set_tag(n, tag), answer),
    }
}

// The text stands at the buffer's start, and nothing else of the buffer has changed.
fn copy<S: LineStore>(
    rt: &impl Abort,
    store: &S,
    n: usize,
    room: usize,
    answer: Result<&[u8], StoreFault>,
) {
    let mut buffer = [UNTOUCHED; BUFFER];
    assert!(rt; room <= BUFFER);
    let got = store.copy(n, &mut buffer[0..room]);
    assert_eq!(rt; got, answer.map(|text| text.len()));
    let written = answer.unwrap_or(&[]);
    assert!(rt; buffer.starts_with(written));
    assert!(rt; buffer.iter().skip(written.len()).all(|b| *b == UNTOUCHED));
}
