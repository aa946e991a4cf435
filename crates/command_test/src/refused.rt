// Lines that are refused, by their faults.
use crate::settings::{listed, named, plain};
use command::fault::Fault;
use reading::line::read_command;
use reading::setting::Setting;
use std::process::Abort;
use std::test::*;

// 25: not for a list, whatever else is wrong at the letter or behind it.
static NOT_LISTED: [&[u8]; 16] = [
    b"a", b"e f", b"g/a/p", b"q", b"u", b"v/a/p", b"1a", b"1q", b"1e x", b"qx", b"e", b"g", b"ux",
    b"av", b"v", b"1,2u",
];

// In a list, the other faults are the same.
static IN_LIST: [(&[u8], Fault); 18] = [
    (b"zz", Fault::BadCommand),
    (b"pp", Fault::BadCommand),
    (b"kA", Fault::BadCommand),
    (b"1 p", Fault::BadCommand),
    (b"s/a/b/x", Fault::BadCommand),
    (b"d\n", Fault::BadCommand),
    (b"1,q", Fault::BadAddress),
    (b"+p", Fault::BadAddress),
    (b",1p", Fault::BadAddress),
    (b"m", Fault::BadAddress),
    (b"1,", Fault::BadAddress),
    (b"s", Fault::BadPattern),
    (b"s/a", Fault::BadPattern),
    (b"/a", Fault::BadPattern),
    (b"s/a**/b/", Fault::BadPattern),
    (b"w", Fault::NoName),
    (b"1w ", Fault::NoName),
    (b"w a b", Fault::BadName),
];

fn refuses(rt: &impl Abort, lines: &[&[u8]], fault: Fault, setting: Setting) -> Result<(), Fail> {
    for (case, line) in lines.iter().enumerate() {
        assert_eq!(rt; (case, fault_of(line, setting)), (case, Some(fault)));
    }
    Ok(())
}

fn fault_of(line: &[u8], setting: Setting) -> Option<Fault> {
    read_command(line, setting).err()
}

// 20: a letter is wanted, and one only.
static NO_LETTER: [&[u8]; 12] = [
    b"'Ap", b"'", b"k", b"kA", b"kab", b"k a", b"k1", b"'1p", b"1,'", b"'{p", b"'`p", b"k{",
];

#[test]
fn refuses_missing_letters(rt: HostRuntime) -> Result<(), Fail> {
    refuses(&rt, &NO_LETTER, Fault::BadCommand, plain())
}

// 20: no such command. A space is none, nor is what only continues an address elsewhere.
static UNKNOWN: [&[u8]; 14] = [
    b" p", b"1 p", b", p", b"z", b"1$p", b".5p", b"'a'bp", b"A", b"1,2x", b"\n", b"&", b"\\",
    b"1'", b"\xff",
];

#[test]
fn refuses_unknown_commands(rt: HostRuntime) -> Result<(), Fail> {
    refuses(&rt, &UNKNOWN, Fault::BadCommand, plain())
}

// 20: bytes over.
static BYTES_OVER: [&[u8]; 12] = [
    b"p ", b"pp", b"qx", b"1m2,2", b"wx", b"ex", b"u1", b"ax", b"=1", b"m1x", b"d ", b"m$p",
];

#[test]
fn refuses_bytes_over(rt: HostRuntime) -> Result<(), Fail> {
    refuses(&rt, &BYTES_OVER, Fault::BadCommand, plain())
}

// 20: no such flags.
static BAD_FLAGS: [&[u8]; 6] = [
    b"s/a/b/pg",
    b"s/a/b/gg",
    b"s/a/b/ p",
    b"s/a/b/x",
    b"s/a/b/gpp",
    b"s/a/b/pp",
];

#[test]
fn refuses_bad_flags(rt: HostRuntime) -> Result<(), Fail> {
    refuses(&rt, &BAD_FLAGS, Fault::BadCommand, plain())
}

// 21: a number over 65,535, however many digits it has.
static OVER_65535: [&[u8]; 7] = [
    b"65536p",
    b"1+65536p",
    b"99999999999999p",
    b"70000,1p",
    b"m70000",
    b"+99999999999999999999999999p",
    b"000000000000000000065536",
];

#[test]
fn refuses_large_numbers(rt: HostRuntime) -> Result<(), Fail> {
    refuses(&rt, &OVER_65535, Fault::BadAddress, plain())
}

// 21: a sign needs its number.
static NO_NUMBER: [&[u8]; 11] = [
    b"+p", b"+", b"-", b"1+", b"1-p", b"1+-2p", b"--1p", b"1,+p", b".+p", b"'a+", b"m'a+",
];

#[test]
fn refuses_lone_signs(rt: HostRuntime) -> Result<(), Fail> {
    refuses(&rt, &NO_NUMBER, Fault::BadAddress, plain())
}

// 21: an address is missing, which counts in front of the byte that stands there.
static NO_ADDRESS: [&[u8]; 18] = [
    b"1,z", b"1,q", b"1,", b",1p", b",'1p", b",/", b"1, 2p", b"1m 2", b"1m", b"1mp", b"1m,", b"m",
    b"m,1", b",.p", b",$", b"1, ", b",+1p", b",5d",
];

#[test]
fn refuses_missing_addresses(rt: HostRuntime) -> Result<(), Fail> {
    refuses(&rt, &NO_ADDRESS, Fault::BadAddress, plain())
}

// 21: a second comma.
static SECOND_COMMA: [&[u8]; 5] = [b",,p", b"1,2,p", b"1,,2p", b"1,2,3p", b"1,2,"];

#[test]
fn refuses_second_commas(rt: HostRuntime) -> Result<(), Fail> {
    refuses(&rt, &SECOND_COMMA, Fault::BadAddress, plain())
}

// 22: a part that is not ended.
static NOT_ENDED: [&[u8]; 12] = [
    b"s/a/b",
    b"s/a",
    b"/a",
    b"g/",
    b"g/a",
    b"v/a",
    b"s/a\\",
    b"/a\\/",
    b"s/a/b\\/",
    b"1,/a",
    b"m/a",
    b"s/",
];

#[test]
fn refuses_open_parts(rt: HostRuntime) -> Result<(), Fail> {
    refuses(&rt, &NOT_ENDED, Fault::BadPattern, plain())
}

// 22: no delimiter.
static NO_DELIMITER: [&[u8]; 8] = [
    b"s",
    b"g",
    b"v",
    b"s a b c ",
    b"s\\a\\b\\",
    b"s\na\nb\n",
    b"g a p",
    b"v\\a\\p",
];

#[test]
fn refuses_missing_delimiters(rt: HostRuntime) -> Result<(), Fail> {
    refuses(&rt, &NO_DELIMITER, Fault::BadPattern, plain())
}

// 22: no pattern, which counts in front of all that stands behind it.
static NO_PATTERN: [&[u8]; 15] = [
    b"s/a**/x/zz",
    b"s/[/]/x/",
    b"//p",
    b"s//x/",
    b"s/\\n/x/",
    b"g//p",
    b"s/[a/b/",
    b"s/\\(a\\)/x/",
    b"s/a\\\nb/x/",
    b"m//",
    b"/a**/p",
    b"s//",
    b"1,/[/p",
    b"/[z-a]/,2p",
    b"v/a**/p",
];

#[test]
fn refuses_bad_patterns(rt: HostRuntime) -> Result<(), Fail> {
    refuses(&rt, &NO_PATTERN, Fault::BadPattern, plain())
}

// 23: no name, and none remembered.
static NO_NAME: [&[u8]; 7] = [b"w", b"w  ", b"e", b"e   ", b"1w", b"w ", b",w"];

#[test]
fn refuses_missing_names(rt: HostRuntime) -> Result<(), Fail> {
    refuses(&rt, &NO_NAME, Fault::NoName, plain())
}

// 24: the name is not good, which is found before line 5 is looked for.
static BAD_NAME: [&[u8]; 11] = [
    b"w a b",
    b"w a ",
    b"5w a b",
    b"e a b",
    b"w \x1f",
    b"w \x7f",
    b"e \xc3\xa4",
    b"w abcdefghijklmnopqrstuvwxy",
    b"w a\x09b",
    b"e f ",
    b"w  a  b",
];

#[test]
fn refuses_bad_names(rt: HostRuntime) -> Result<(), Fail> {
    refuses(&rt, &BAD_NAME, Fault::BadName, plain())
}

// 26: an address for `e`, `q` or `u`, whatever stands behind the letter.
static UNWANTED: [&[u8]; 14] = [
    b"1q", b",q", b"1qx", b"1e f", b"1u", b".e", b"$u", b"1,2q", b",u", b"'aq", b"/x/q", b"+1u",
    b"1ex", b"0q",
];

#[test]
fn refuses_unwanted_addresses(rt: HostRuntime) -> Result<(), Fail> {
    refuses(&rt, &UNWANTED, Fault::UnwantedAddress, plain())
}

#[test]
fn refuses_what_is_not_for_lists(rt: HostRuntime) -> Result<(), Fail> {
    refuses(&rt, &NOT_LISTED, Fault::NotInList, listed())
}

#[test]
fn refuses_in_lists_as_elsewhere(rt: HostRuntime) -> Result<(), Fail> {
    for (case, row) in IN_LIST.iter().enumerate() {
        let (line, fault) = *row;
        assert_eq!(rt; (case, fault_of(line, listed())), (case, Some(fault)));
    }
    Ok(())
}

// A remembered name cures only 23.
#[test]
fn refuses_bad_names_with_a_name(rt: HostRuntime) -> Result<(), Fail> {
    refuses(&rt, &BAD_NAME, Fault::BadName, named())
}

// 1,000 bytes are read, 1,001 are not.
#[test]
fn refuses_long_lines(rt: HostRuntime) -> Result<(), Fail> {
    assert_eq!(rt; fault_of(&[b'0'; 1_000], plain()), None);
    assert_eq!(rt;
        fault_of(&[b'0'; 1_001], plain()),
        Some(Fault::CommandTooLong)
    );
    assert_eq!(rt;
        fault_of(&[b'q'; 1_001], listed()),
        Some(Fault::CommandTooLong)
    );
    Ok(())
}
