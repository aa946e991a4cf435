// Calls of a shelf with the answers wanted, and how such a list is run. A refusal is its number.
use shelf::fault::ShelfFault;
use shelf::interface::Shelf;
use std::process::Abort;
use std::test::Fail;

// How long the buffer of a copy is; a copy is lent its first bytes.
pub const BUFFER: usize = 8;

// What the buffer holds before a copy.
const BLANK: u8 = b'.';

#[derive(Clone, Copy)]
pub enum Call {
    Lookup(&'static [u8], Option<usize>),
    Size(usize, Result<usize, u8>),
    Begins(usize, &'static [u8], Result<bool, u8>),
    // A copy of the file from a place on, into so many bytes of the buffer; its answer, and the whole
    // buffer afterwards.
    Copy(usize, usize, usize, Result<usize, u8>, &'static [u8; BUFFER]),
    Clear(&'static [u8], usize, Result<usize, u8>),
    Add(usize, &'static [u8], Result<(), u8>),
}

pub(crate) fn play<S: Shelf>(rt: &impl Abort, shelf: &mut S, calls: &[Call]) -> Result<(), Fail> {
    for call in calls {
        match *call {
            Call::Lookup(name, want) => assert_eq!(rt; shelf.lookup(name), want),
            Call::Size(file, want) => assert_eq!(rt; numbered(shelf.size(file)), want),
            Call::Begins(file, prefix, want) => assert_eq!(rt;
                numbered(shelf.begins(file, prefix)),
                want
            ),
            Call::Copy(file, from, room, want, after) => copies(
                rt, shelf, file, from, room, want, after,
            ),
            Call::Clear(name, size, want) => assert_eq!(rt;
                numbered(shelf.clear(name, size)),
                want
            ),
            Call::Add(file, bytes, want) => assert_eq!(rt; numbered(shelf.add(file, bytes)), want),
        }
    }
    Ok(())
}

fn copies<S: Shelf>(
    rt: &impl Abort,
    shelf: &S,
    file: usize,
    from: usize,
    room: usize,
    want: Result<usize, u8>,
    after: &[u8; BUFFER],
) {
    let mut buffer = [BLANK; BUFFER];
    assert!(rt; room <= BUFFER);
    assert_eq!(rt;
        numbered(shelf.copy(file, from, &mut buffer[0..room])),
        want
    );
    assert_eq!(rt; buffer, *after);
}

fn numbered<T>(answer: Result<T, ShelfFault>) -> Result<T, u8> {
    answer.map_err(|fault| fault.number())
}
