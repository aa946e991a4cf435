// Lines that are accepted, and what they say. A base is shown as it is typed, then the sums of its offsets where they
// are not 0, a colon, and the command; bytes taken from the line stand in brackets.
use crate::settings::{listed, named, plain};
use crate::shows::shows;
use command::said::{Addresses, Said};
use reading::line::read_command;
use std::test::*;

// Every base, and the empty command.
static BASES: [(&[u8], &[u8]); 19] = [
    (b"", b":next"),
    (b"p", b":print"),
    (b".", b".:next"),
    (b"$", b"$:next"),
    (b"1", b"1:next"),
    (b"0", b"0:next"),
    (b"007", b"7:next"),
    (b"00002p", b"2:print"),
    (b"65535p", b"65535:print"),
    (b"'ap", b"'a:print"),
    (b"'z", b"'z:next"),
    (b"'m=", b"'m:number"),
    (b"/x/p", b"/x/:print"),
    (b"/x/", b"/x/:next"),
    (b"/a\\/b/p", b"/a\\/b/:print"),
    (b"/[a\\/]/p", b"/[a\\/]/:print"),
    (b"/^$/d", b"/^$/:delete"),
    (b"/a.*b/p", b"/a.*b/:print"),
    (b"/\\\\/p", b"/\\\\/:print"),
];

#[test]
fn reads_bases(rt: HostRuntime) -> Result<(), Fail> {
    shows(&rt, &BASES, plain())
}

// Offsets, which are summed by their signs.
static OFFSETS: [(&[u8], &[u8]); 15] = [
    (b"+1p", b".+1:print"),
    (b"-1p", b".-1:print"),
    (b"+0", b".:next"),
    (b".+3-1p", b".+3-1:print"),
    (b"$-2p", b"$-2:print"),
    (b"1+2+3p", b"1+5:print"),
    (b"1-2-3+4p", b"1+4-5:print"),
    (b"'a+1", b"'a+1:next"),
    (b"/x/-1d", b"/x/-1:delete"),
    (b"60000-59999p", b"60000-59999:print"),
    (b"2+9-9p", b"2+9-9:print"),
    (b"+65535-65535p", b".+65535-65535:print"),
    (b"1+00001p", b"1+1:print"),
    (b"+1+1+1", b".+3:next"),
    (b"0-1", b"0-1:next"),
];

#[test]
fn reads_offsets(rt: HostRuntime) -> Result<(), Fail> {
    shows(&rt, &OFFSETS, plain())
}

// Two addresses, and the comma by itself.
static PAIRS: [(&[u8], &[u8]); 15] = [
    (b"1,2p", b"1,2:print"),
    (b"1,$d", b"1,$:delete"),
    (b".,$p", b".,$:print"),
    (b"'a,'bp", b"'a,'b:print"),
    (b"/a/,/b/p", b"/a/,/b/:print"),
    (b"+1,+2p", b".+1,.+2:print"),
    (b"1+1,2+2p", b"1+1,2+2:print"),
    (b"$,1p", b"$,1:print"),
    (b",p", b"1,$:print"),
    (b",", b"1,$:next"),
    (b",d", b"1,$:delete"),
    (b",=", b"1,$:number"),
    (b"9,9", b"9,9:next"),
    (b"1,2", b"1,2:next"),
    (b"/,/,/,/p", b"/,/,/,/:print"),
];

#[test]
fn reads_pairs(rt: HostRuntime) -> Result<(), Fail> {
    shows(&rt, &PAIRS, plain())
}

// Commands with nothing behind them.
static ALONE: [(&[u8], &[u8]); 11] = [
    (b"a", b":append"),
    (b"0a", b"0:append"),
    (b"$a", b"$:append"),
    (b",a", b"1,$:append"),
    (b"d", b":delete"),
    (b"1,2d", b"1,2:delete"),
    (b"=", b":number"),
    (b".=", b".:number"),
    (b"$=", b"$:number"),
    (b"q", b":quit"),
    (b"u", b":undo"),
];

#[test]
fn reads_commands_alone(rt: HostRuntime) -> Result<(), Fail> {
    shows(&rt, &ALONE, plain())
}

// `k` and `m`.
static OPERANDS: [(&[u8], &[u8]); 14] = [
    (b"ka", b":mark a"),
    (b"1kz", b"1:mark z"),
    (b"1,2km", b"1,2:mark m"),
    (b"'akb", b"'a:mark b"),
    (b"m0", b":move 0"),
    (b"1,2m$", b"1,2:move $"),
    (b"1m.+1", b"1:move .+1"),
    (b"m+1", b":move .+1"),
    (b"m'a-1", b":move 'a-1"),
    (b"m/x/", b":move /x/"),
    (b"m-3", b":move .-3"),
    (b"2,3m1", b"2,3:move 1"),
    (b",m0", b"1,$:move 0"),
    (b"m/x/+1-2", b":move /x/+1-2"),
];

#[test]
fn reads_marks_and_destinations(rt: HostRuntime) -> Result<(), Fail> {
    shows(&rt, &OPERANDS, plain())
}

// `s`, with all kinds of delimiters.
static SUBSTITUTIONS: [(&[u8], &[u8]); 24] = [
    (b"s/a/b/", b":substitute [/][a][b]"),
    (b"s/a/b/g", b":substitute [/][a][b]g"),
    (b"s/a/b/p", b":substitute [/][a][b]p"),
    (b"s/a/b/gp", b":substitute [/][a][b]gp"),
    (b"s/a//", b":substitute [/][a][]"),
    (b"s/a/&/", b":substitute [/][a][&]"),
    (b"s/a/\\//", b":substitute [/][a][\\/]"),
    (b"s,a,b,", b":substitute [,][a][b]"),
    (b"snanbn", b":substitute [n][a][b]"),
    (b"s.a\\.b.x.", b":substitute [.][a\\.b][x]"),
    (b"s1a1b1g", b":substitute [1][a][b]g"),
    (b"s/[\\/]/x/", b":substitute [/][[\\/]][x]"),
    (b"s/a\\\\/b/", b":substitute [/][a\\\\][b]"),
    (b"s/^/x/", b":substitute [/][^][x]"),
    (b"s/$/z/", b":substitute [/][$][z]"),
    (b"s*a*b*", b":substitute [*][a][b]"),
    (b"s/a/b\\\n/", b":substitute [/][a][b\\\n]"),
    (b"s/[a\\\n]/x/", b":substitute [/][[a\\\n]][x]"),
    (b"1,$s/a/b/gp", b"1,$:substitute [/][a][b]gp"),
    (b"/x/s/y/z/", b"/x/:substitute [/][y][z]"),
    (b"s\xffa\xffb\xff", b":substitute [\xff][a][b]"),
    (b"s\x00a\x00b\x00", b":substitute [\x00][a][b]"),
    (b"sgagbgg", b":substitute [g][a][b]g"),
    (b"s/a/ /", b":substitute [/][a][ ]"),
];

#[test]
fn reads_substitutions(rt: HostRuntime) -> Result<(), Fail> {
    shows(&rt, &SUBSTITUTIONS, plain())
}

// `e` and `w` with a name.
static NAMES: [(&[u8], &[u8]); 9] = [
    (b"w f", b":write [f]"),
    (b"w    f", b":write [f]"),
    (b"1,2w f", b"1,2:write [f]"),
    (
        b"w abcdefghijklmnopqrstuvwx",
        b":write [abcdefghijklmnopqrstuvwx]",
    ),
    (b"w !", b":write [!]"),
    (b"w ~", b":write [~]"),
    (b"e f", b":edit [f]"),
    (b"e   a/b.txt", b":edit [a/b.txt]"),
    (b"/x/w f", b"/x/:write [f]"),
];

#[test]
fn reads_names(rt: HostRuntime) -> Result<(), Fail> {
    shows(&rt, &NAMES, plain())
}

// `g` and `v`; what stands in the list does not matter.
static GLOBALS: [(&[u8], &[u8]); 11] = [
    (b"g/a/", b":matching [/][a][]"),
    (b"g/a/p", b":matching [/][a][p]"),
    (b"g/a/d\\\np", b":matching [/][a][d\\\np]"),
    (b"v/a/d", b":lacking [/][a][d]"),
    (b"1,2g/x/m0", b"1,2:matching [/][x][m0]"),
    (b",v.a\\..p", b"1,$:lacking [.][a\\.][p]"),
    (b"g/a/zzz", b":matching [/][a][zzz]"),
    (b"g/a/g/b/p", b":matching [/][a][g/b/p]"),
    (b"gxaxp", b":matching [x][a][p]"),
    (b"g/a//", b":matching [/][a][/]"),
    (b"v/^$/ ", b":lacking [/][^$][ ]"),
];

#[test]
fn reads_globals(rt: HostRuntime) -> Result<(), Fail> {
    shows(&rt, &GLOBALS, plain())
}

// With a name remembered.
static REMEMBERED: [(&[u8], &[u8]); 7] = [
    (b"w", b":write remembered"),
    (b"e", b":edit remembered"),
    (b"w   ", b":write remembered"),
    (b"1,2w", b"1,2:write remembered"),
    (b"w f", b":write [f]"),
    (b"e f", b":edit [f]"),
    (b"e ", b":edit remembered"),
];

#[test]
fn reads_remembered_names(rt: HostRuntime) -> Result<(), Fail> {
    shows(&rt, &REMEMBERED, named())
}

// In a list.
static LISTED: [(&[u8], &[u8]); 12] = [
    (b"", b":next"),
    (b"d", b":delete"),
    (b"p", b":print"),
    (b"ka", b":mark a"),
    (b"m0", b":move 0"),
    (b"=", b":number"),
    (b"s/a/b/gp", b":substitute [/][a][b]gp"),
    (b"w f", b":write [f]"),
    (b"1,2p", b"1,2:print"),
    (b"+1d", b".+1:delete"),
    (b",d", b"1,$:delete"),
    (b"'ap", b"'a:print"),
];

#[test]
fn reads_lines_of_lists(rt: HostRuntime) -> Result<(), Fail> {
    shows(&rt, &LISTED, listed())
}

// 166 offsets of the greatest number in 996 bytes, and 500 in 1,000.
#[test]
fn sums_many_offsets(rt: HostRuntime) -> Result<(), Fail> {
    let mut far = Vec::new(rt.alloc());
    for _ in 0..166 {
        far.extend_from_slice(b"+65535")?;
    }
    assert_eq!(rt; offsets(far.as_slice()), Some((10_878_810, 0)));
    let mut back = Vec::new(rt.alloc());
    for _ in 0..500 {
        back.extend_from_slice(b"-1")?;
    }
    assert_eq!(rt; offsets(back.as_slice()), Some((0, 500)));
    back.extend_from_slice(b"-1")?;
    assert_eq!(rt; offsets(back.as_slice()), None);
    Ok(())
}

fn offsets(line: &[u8]) -> Option<(u32, u32)> {
    match read_command(line, plain()) {
        Ok(
            Said {
                addresses: Addresses::OneAddress(address),
                ..
            },
        ) => Some((address.ahead, address.back)),
        _ => None,
    }
}
