// The tests. The files of a shelf are named in its calls, so each list can be followed by hand.
use crate::play::{Call, play};
use guard::fault::GuardRefused;
use guard::guard::Guard;
use packed_shelf::packed::PackedShelf;
use shelf::interface::Shelf;
use std::process::Abort;
use std::test::Fail;

#[test]
fn fills_to_the_last_byte(rt: HostRuntime) -> Result<(), Fail> {
    let mut shelf = PackedShelf::new(rt.alloc(), 10)?;
    play(
        &rt,
        &mut shelf,
        &[
            Call::Clear(b"a", 11, Err(51)),
            Call::Clear(b"a", 10, Ok(0)),
            Call::Add(0, b"1234567", Ok(())),
            Call::Add(0, b"89AB", Err(51)),
            Call::Size(0, Ok(7)),
            Call::Add(0, b"89A", Ok(())),
            Call::Add(0, b"", Ok(())),
            Call::Add(0, b"B", Err(51)),
            Call::Clear(b"b", 1, Err(51)),
            Call::Clear(b"b", 0, Ok(1)),
            Call::Copy(0, 3, 8, Ok(7), b"456789A."),
        ],
    )
}

#[test]
fn reuses_a_middle_file(rt: HostRuntime) -> Result<(), Fail> {
    let mut shelf = PackedShelf::new(rt.alloc(), 12)?;
    play(
        &rt,
        &mut shelf,
        &[
            Call::Clear(b"a", 4, Ok(0)),
            Call::Add(0, b"aaaa", Ok(())),
            Call::Clear(b"b", 4, Ok(1)),
            Call::Add(1, b"bbbb", Ok(())),
            Call::Clear(b"c", 4, Ok(2)),
            Call::Add(2, b"cccc", Ok(())),
            Call::Clear(b"d", 4, Err(51)),
            Call::Lookup(b"d", None),
            Call::Clear(b"b", 0, Ok(1)),
            Call::Size(1, Ok(0)),
            Call::Clear(b"d", 4, Ok(3)),
            Call::Add(3, b"dddd", Ok(())),
            Call::Add(1, b"b", Err(51)),
            Call::Copy(0, 0, 8, Ok(4), b"aaaa...."),
            Call::Copy(1, 0, 8, Ok(0), b"........"),
            Call::Copy(2, 0, 8, Ok(4), b"cccc...."),
            Call::Copy(3, 0, 8, Ok(4), b"dddd...."),
            Call::Lookup(b"a", Some(0)),
            Call::Lookup(b"b", Some(1)),
            Call::Lookup(b"c", Some(2)),
            Call::Lookup(b"d", Some(3)),
        ],
    )
}

#[test]
fn gives_back_what_a_cleared_file_held(rt: HostRuntime) -> Result<(), Fail> {
    let mut shelf = PackedShelf::new(rt.alloc(), 10)?;
    play(
        &rt,
        &mut shelf,
        &[
            Call::Clear(b"a", 6, Ok(0)),
            Call::Add(0, b"123456", Ok(())),
            Call::Clear(b"b", 4, Ok(1)),
            Call::Add(1, b"wxyz", Ok(())),
            // 4 bytes stay, so 6 are free for the file and 7 are not.
            Call::Clear(b"a", 7, Err(51)),
            Call::Clear(b"a", usize::MAX, Err(51)),
            Call::Copy(0, 0, 8, Ok(6), b"123456.."),
            Call::Clear(b"a", 6, Ok(0)),
            Call::Size(0, Ok(0)),
            // The size is only asked about: the other file may take the room.
            Call::Add(1, b"UVWXYZ", Ok(())),
            Call::Add(0, b"1", Err(51)),
            Call::Copy(1, 0, 8, Ok(8), b"wxyzUVWX"),
            Call::Copy(1, 8, 8, Ok(2), b"YZ......"),
        ],
    )
}

#[test]
fn grows_files_in_front_of_others(rt: HostRuntime) -> Result<(), Fail> {
    let mut shelf = PackedShelf::new(rt.alloc(), 14)?;
    play(
        &rt,
        &mut shelf,
        &[
            Call::Clear(b"a", 0, Ok(0)),
            Call::Clear(b"b", 0, Ok(1)),
            Call::Clear(b"c", 0, Ok(2)),
            Call::Add(2, b"cc", Ok(())),
            Call::Add(0, b"aa", Ok(())),
            Call::Add(1, b"bb", Ok(())),
            Call::Add(0, b"AAA", Ok(())),
            Call::Add(1, b"B", Ok(())),
            Call::Copy(0, 0, 8, Ok(5), b"aaAAA..."),
            Call::Copy(1, 0, 8, Ok(3), b"bbB....."),
            Call::Copy(2, 0, 8, Ok(2), b"cc......"),
            Call::Clear(b"a", 9, Ok(0)),
            Call::Add(0, b"new", Ok(())),
            Call::Add(2, b"CCC", Ok(())),
            Call::Add(1, b"BBB", Ok(())),
            Call::Add(0, b"!", Err(51)),
            Call::Copy(0, 0, 8, Ok(3), b"new....."),
            Call::Copy(1, 0, 8, Ok(6), b"bbBBBB.."),
            Call::Copy(2, 0, 8, Ok(5), b"ccCCC..."),
        ],
    )
}

#[test]
fn holds_eight_files(rt: HostRuntime) -> Result<(), Fail> {
    let mut shelf = PackedShelf::new(rt.alloc(), 0)?;
    play(
        &rt,
        &mut shelf,
        &[
            Call::Clear(b"f0", 0, Ok(0)),
            Call::Clear(b"f1", 0, Ok(1)),
            Call::Clear(b"f2", 0, Ok(2)),
            Call::Clear(b"f3", 0, Ok(3)),
            Call::Clear(b"f4", 0, Ok(4)),
            Call::Clear(b"f5", 0, Ok(5)),
            Call::Clear(b"f6", 0, Ok(6)),
            Call::Clear(b"f7", 0, Ok(7)),
            Call::Clear(b"f8", 0, Err(51)),
            Call::Lookup(b"f8", None),
            Call::Lookup(b"f7", Some(7)),
            Call::Clear(b"f3", 0, Ok(3)),
            Call::Clear(b"f0", 0, Ok(0)),
            Call::Add(3, b"", Ok(())),
            Call::Add(3, b"x", Err(51)),
            Call::Size(7, Ok(0)),
            Call::Size(8, Err(54)),
        ],
    )
}

#[test]
fn takes_good_names(rt: HostRuntime) -> Result<(), Fail> {
    let mut shelf = PackedShelf::new(rt.alloc(), 0)?;
    play(
        &rt,
        &mut shelf,
        &[
            Call::Clear(b"", 0, Err(24)),
            Call::Clear(b"x", 0, Ok(0)),
            Call::Clear(b"123456789012345678901234", 0, Ok(1)),
            Call::Clear(b"1234567890123456789012345", 0, Err(24)),
            Call::Clear(b" ", 0, Err(24)),
            Call::Clear(b"!", 0, Ok(2)),
            Call::Clear(b"~", 0, Ok(3)),
            Call::Clear(b"\x7f", 0, Err(24)),
            Call::Clear(b"a b", 0, Err(24)),
            Call::Clear(b"ab\n", 0, Err(24)),
            Call::Clear(b"ab\xff", usize::MAX, Err(24)),
            Call::Lookup(b"", None),
            Call::Lookup(b"a b", None),
            Call::Lookup(b"123456789012345678901234", Some(1)),
            Call::Lookup(b"12345678901234567890123", None),
            Call::Lookup(b"1234567890123456789012345", None),
            Call::Lookup(b"~", Some(3)),
            Call::Begins(1, b"1234", Ok(true)),
            Call::Begins(1, b"234", Ok(false)),
            Call::Begins(1, b"", Ok(true)),
            Call::Begins(1, b"123456789012345678901234", Ok(true)),
            Call::Begins(1, b"1234567890123456789012345", Ok(false)),
            Call::Begins(4, b"", Err(54)),
        ],
    )
}

#[test]
fn copies_what_fits(rt: HostRuntime) -> Result<(), Fail> {
    let mut shelf = PackedShelf::new(rt.alloc(), 20)?;
    play(
        &rt,
        &mut shelf,
        &[
            Call::Copy(0, 0, 8, Err(54), b"........"),
            Call::Clear(b"front", 5, Ok(0)),
            Call::Add(0, b"FRONT", Ok(())),
            Call::Clear(b"a", 6, Ok(1)),
            Call::Clear(b"behind", 6, Ok(2)),
            Call::Add(2, b"BEHIND", Ok(())),
            Call::Add(1, b"abcdef", Ok(())),
            Call::Copy(1, 0, 8, Ok(6), b"abcdef.."),
            Call::Copy(1, 0, 6, Ok(6), b"abcdef.."),
            Call::Copy(1, 0, 4, Ok(4), b"abcd...."),
            Call::Copy(1, 0, 0, Ok(0), b"........"),
            Call::Copy(1, 2, 3, Ok(3), b"cde....."),
            Call::Copy(1, 5, 8, Ok(1), b"f......."),
            Call::Copy(1, 6, 8, Ok(0), b"........"),
            Call::Copy(1, 7, 8, Ok(0), b"........"),
            Call::Copy(1, usize::MAX, 8, Ok(0), b"........"),
            Call::Copy(3, 0, 8, Err(54), b"........"),
            Call::Copy(usize::MAX, 0, 8, Err(54), b"........"),
            Call::Add(3, b"", Err(54)),
        ],
    )
}

#[test]
fn makes_shelves_up_to_the_limit(rt: HostRuntime) -> Result<(), Fail> {
    let mut largest = PackedShelf::new(rt.alloc(), 1_048_576)?;
    play(
        &rt,
        &mut largest,
        &[
            Call::Clear(b"a", 1_048_577, Err(51)),
            Call::Clear(b"a", 1_048_576, Ok(0)),
        ],
    )?;
    let above = PackedShelf::new(rt.alloc(), 1_048_577);
    assert_eq!(rt; above.err().map(|fault| fault.number()), Some(30));
    Ok(())
}

// A guard that must be made.
fn guarded<S>(below: S, prefix: &[u8]) -> Result<Guard<S>, Fail>
where
    S: Drop,
{
    Guard::new(below, prefix).map_err(|_| Fail::new("no guard"))
}

#[test]
fn piles_guards(rt: HostRuntime) -> Result<(), Fail> {
    let mut shelf = PackedShelf::new(rt.alloc(), 10)?;
    play(
        &rt,
        &mut shelf,
        &[
            Call::Clear(b"sys.log", 3, Ok(0)),
            Call::Add(0, b"log", Ok(())),
            Call::Clear(b"notes", 0, Ok(1)),
            Call::Clear(b"a", 0, Ok(2)),
        ],
    )?;
    let mut piled = guarded(guarded(guarded(shelf, b"sys")?, b"a")?, b"keep.")?;
    play(
        &rt,
        &mut piled,
        &[
            Call::Lookup(b"sys.log", Some(0)),
            Call::Lookup(b"sys", None),
            Call::Size(0, Ok(3)),
            Call::Begins(0, b"sys", Ok(true)),
            Call::Copy(0, 1, 8, Ok(2), b"og......"),
            // The inner, the middle and the outer guard, each before 51.
            Call::Clear(b"sys.log", 0, Err(52)),
            Call::Clear(b"sys", usize::MAX, Err(52)),
            Call::Clear(b"abc", usize::MAX, Err(52)),
            Call::Clear(b"keep.it", usize::MAX, Err(52)),
            Call::Add(0, b"", Err(52)),
            Call::Add(0, b"0123456789", Err(52)),
            Call::Add(2, b"x", Err(52)),
            Call::Size(0, Ok(3)),
            // A bad name and a missing number come first.
            Call::Clear(b"sys log", 0, Err(24)),
            Call::Clear(b"", 0, Err(24)),
            Call::Add(3, b"x", Err(54)),
            // Shorter than a prefix, or with it elsewhere.
            Call::Clear(b"sy", 0, Ok(3)),
            Call::Clear(b"mysys", 0, Ok(4)),
            Call::Clear(b"keep", 0, Ok(5)),
            Call::Add(1, b"12345678", Err(51)),
            Call::Add(1, b"1234567", Ok(())),
            Call::Clear(b"n", 1, Err(51)),
        ],
    )?;
    let mut shelf = piled.into_below().into_below().into_below();
    play(
        &rt,
        &mut shelf,
        &[
            Call::Copy(1, 0, 8, Ok(7), b"1234567."),
            Call::Clear(b"sys.log", 3, Ok(0)),
            Call::Clear(b"keep.it", 3, Ok(6)),
        ],
    )
}

// A shelf comes back from a guard that is not made.
fn refuses_prefix(rt: &(impl Abort + AllocGlobal), prefix: &[u8]) -> Result<(), Fail> {
    let mut shelf = PackedShelf::new(rt.alloc(), 3)?;
    play(
        rt,
        &mut shelf,
        &[Call::Clear(b"a", 0, Ok(0)), Call::Add(0, b"abc", Ok(()))],
    )?;
    match Guard::new(shelf, prefix) {
        Ok(_) => Err(Fail::new("made a guard")),
        Err(GuardRefused { mut below, fault }) => {
            assert_eq!(rt; fault.number(), 24);
            play(rt, &mut below, &[Call::Copy(0, 0, 8, Ok(3), b"abc.....")])
        }
    }
}

#[test]
fn makes_guards_of_good_prefixes(rt: HostRuntime) -> Result<(), Fail> {
    refuses_prefix(&rt, b"")?;
    refuses_prefix(&rt, b"1234567890123456789012345")?;
    let shelf = PackedShelf::new(rt.alloc(), 0)?;
    let mut piled = guarded(guarded(shelf, b"1")?, b"x23456789012345678901234")?;
    play(
        &rt,
        &mut piled,
        &[
            Call::Clear(b"1", 0, Err(52)),
            Call::Clear(b"x23456789012345678901234", 0, Err(52)),
            Call::Clear(b"x2345678901234567890123", 0, Ok(0)),
            Call::Begins(0, b"x2", Ok(true)),
        ],
    )?;
    assert_eq!(rt;
        piled.below().below().lookup(b"x2345678901234567890123"),
        Some(0)
    );
    Ok(())
}
