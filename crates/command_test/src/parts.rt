// The bits of replacements and the commands of lists.
use command::fault::Fault;
use command::list::{first_command, or_print};
use command::mark::Mark;
use command::replacement::{Bit, next_bit};
use std::test::*;

// A replacement and its bits: `M ` the match, `B ` a break, `=` and the byte.
static BITS: [(&[u8], &[u8]); 21] = [
    (b"", b""),
    (b"a", b"=a"),
    (b"abc", b"=a=b=c"),
    (b"&", b"M "),
    (b"a&b", b"=aM =b"),
    (b"\\&", b"=&"),
    (b"\\\\", b"=\\"),
    (b"\\\n", b"B "),
    (b"a\\\nb", b"=aB =b"),
    (b"\\a", b"=a"),
    (b"\\1", b"=1"),
    (b"%", b"=%"),
    (b"1", b"=1"),
    (b"&&", b"M M "),
    (b"\\\\&", b"=\\M "),
    (b"\\\\\\&", b"=\\=&"),
    (b"\\/", b"=/"),
    (b"\n", b"=\n"),
    (b"\\", b"=\\"),
    (b"a\\", b"=a=\\"),
    (b"\x00\xff", b"=\x00=\xff"),
];

// A list and its commands, each with `|` behind it.
static LISTS: [(&[u8], &[u8]); 16] = [
    (b"", b"p|"),
    (b"p", b"p|"),
    (b"p\\\nd", b"p|d|"),
    (b"d\\\np\\\n=", b"d|p|=|"),
    (b"\\\n", b"||"),
    (b"p\\\n", b"p||"),
    (b"\\\np", b"|p|"),
    (b"\\\n\\\n", b"|||"),
    (b"a\\\\\nb", b"a\\|b|"),
    (b"s/a/b\\\nc/", b"s/a/b|c/|"),
    (b"\\", b"\\|"),
    (b"\n", b"\n|"),
    (b"a\nb", b"a\nb|"),
    (b"\\a\\", b"\\a\\|"),
    (b"\\\\", b"\\\\|"),
    (b"p\n\\", b"p\n\\|"),
];

#[test]
fn reads_replacements(rt: HostRuntime) -> Result<(), Fail> {
    for row in BITS.iter() {
        let (replacement, wanted) = *row;
        let mut text = Vec::new(rt.alloc());
        let mut rest = replacement;
        // A count of turns and no `while let`: what `next_bit` promises says nothing of lengths, so no measure is seen to fall.
        for _ in 0..replacement.len() {
            let Some((bit, behind)) = next_bit(rest) else {
                break;
            };
            match bit {
                Bit::TheMatch => text.extend_from_slice(b"M ")?,
                Bit::TheBreak => text.extend_from_slice(b"B ")?,
                Bit::TheByte(byte) => text.extend_from_slice(&[b'=', byte])?,
            }
            rest = behind;
        }
        assert_eq!(rt; text.as_slice(), wanted);
        assert_eq!(rt; rest.len(), 0);
    }
    Ok(())
}

#[test]
fn cuts_lists(rt: HostRuntime) -> Result<(), Fail> {
    for row in LISTS.iter() {
        let (list, wanted) = *row;
        let mut text = Vec::new(rt.alloc());
        let mut left = Some(or_print(list));
        // The same with `first_command`.
        for _ in 0..=list.len() {
            let Some(commands) = left else {
                break;
            };
            let (command, behind) = first_command(commands);
            text.extend_from_slice(command)?;
            text.push(b'|')?;
            left = behind;
        }
        assert_eq!(rt; text.as_slice(), wanted);
        assert!(rt; left.is_none());
    }
    Ok(())
}

#[test]
fn names_marks(rt: HostRuntime) -> Result<(), Fail> {
    for byte in 0..=255u8 {
        let wanted = match byte {
            b'a'..=b'z' => Some(byte - b'a'),
            _ => None,
        };
        let found = Mark::named(byte).map(|mark| mark.bit());
        assert_eq!(rt; (byte, found), (byte, wanted));
    }
    Ok(())
}

#[test]
fn numbers_faults(rt: HostRuntime) -> Result<(), Fail> {
    assert_eq!(rt; Fault::SheetTooShort.number(), 1);
    assert_eq!(rt; Fault::WrongStores.number(), 5);
    assert_eq!(rt; Fault::TextFull.number(), 10);
    assert_eq!(rt; Fault::UnwantedAddress.number(), 26);
    assert_eq!(rt; Fault::DestinationInRange.number(), 34);
    assert_eq!(rt; Fault::FileNotFound.number(), 50);
    assert_eq!(rt; Fault::ProtectedName.number(), 52);
    assert_eq!(rt; Fault::SheetFull.number(), 62);
    Ok(())
}
