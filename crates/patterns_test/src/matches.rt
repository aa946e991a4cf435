// Where patterns match.
use matching::{Match, MatchFault, find};
use patterns::Pattern;
use std::test::Fail;

// Part, line, the place to search from, start and end of the match.
static SEARCHED: [(&[u8], &[u8], usize, Option<(usize, usize)>); 95] = [
    (b"a", b"banana", 0, Some((1, 2))),
    (b"a", b"banana", 2, Some((3, 4))),
    (b"a", b"banana", 4, Some((5, 6))),
    (b"a", b"banana", 6, None),
    (b"a", b"banana", 7, None),
    (b"an", b"banana", 0, Some((1, 3))),
    (b"an", b"banana", 2, Some((3, 5))),
    (b"nab", b"banana", 0, None),
    (b"a*", b"baaac", 0, Some((0, 0))),
    (b"a*", b"baaac", 1, Some((1, 4))),
    (b"a*", b"baaac", 2, Some((2, 4))),
    (b"a*", b"baaac", 4, Some((4, 4))),
    (b"a*", b"baaac", 5, Some((5, 5))),
    (b"a*", b"baaac", 6, None),
    (b"aa*", b"baaac", 0, Some((1, 4))),
    (b".", b"", 0, None),
    (b".", b"x", 0, Some((0, 1))),
    (b".", b"x", 1, None),
    (b".*", b"abc", 0, Some((0, 3))),
    (b".*", b"abc", 2, Some((2, 3))),
    (b".*", b"abc", 3, Some((3, 3))),
    (b".*", b"abc", 4, None),
    (b".*", b"abc", 1000000, None),
    (b"^", b"abc", 0, Some((0, 0))),
    (b"^", b"abc", 1, None),
    (b"^", b"", 0, Some((0, 0))),
    (b"$", b"abc", 0, Some((3, 3))),
    (b"$", b"abc", 3, Some((3, 3))),
    (b"$", b"abc", 4, None),
    (b"$", b"", 0, Some((0, 0))),
    (b"^$", b"", 0, Some((0, 0))),
    (b"^$", b"a", 0, None),
    (b"^a", b"aab", 0, Some((0, 1))),
    (b"^a", b"aab", 1, None),
    (b"^a", b"ba", 0, None),
    (b"a$", b"aa", 0, Some((1, 2))),
    (b"a$", b"ab", 0, None),
    (b"a*$", b"baa", 0, Some((1, 3))),
    (b"a*$", b"aab", 0, Some((3, 3))),
    (b"^a*$", b"aaa", 0, Some((0, 3))),
    (b"^a*$", b"aab", 0, None),
    (b"^.*$", b"", 0, Some((0, 0))),
    (b"x*y", b"xxxy", 0, Some((0, 4))),
    (b"x*x", b"xxx", 0, Some((0, 3))),
    (b"x*xx", b"xxx", 0, Some((0, 3))),
    (b"x*xxx", b"xx", 0, None),
    (b"x*xy", b"zxxy", 0, Some((1, 4))),
    (b"[0-9][0-9]*", b"abc123d", 0, Some((3, 6))),
    (b"[0-9]*", b"abc123d", 0, Some((0, 0))),
    (b"[^ ]*", b"ab cd", 0, Some((0, 2))),
    (b"[^ ]*", b"ab cd", 2, Some((2, 2))),
    (b"[^ ]*", b"ab cd", 3, Some((3, 5))),
    (b" [^ ]*$", b"ab cd ef", 0, Some((5, 8))),
    (b"a.c", b"abc aXc", 0, Some((0, 3))),
    (b"a.c", b"abc aXc", 1, Some((4, 7))),
    (b"\\.", b"a.b", 0, Some((1, 2))),
    (b"a\\*b", b"a*b", 0, Some((0, 3))),
    (b"*b", b"a*b", 0, Some((1, 3))),
    (b"^*ab", b"*ab", 0, Some((0, 3))),
    (b"^*ab", b"ab", 0, None),
    (b"**", b"***", 0, Some((0, 3))),
    (b"**a", b"x**a", 0, Some((1, 4))),
    (b"a$b", b"xa$b", 0, Some((1, 4))),
    (b"a^b", b"a^b", 0, Some((0, 3))),
    (b"$$", b"a$", 0, Some((1, 2))),
    (b"$$", b"$$", 0, Some((1, 2))),
    (b"a\\$", b"a$$", 0, Some((0, 2))),
    (b"[]]*", b"a]]b", 0, Some((0, 0))),
    (b"[]]*", b"a]]b", 1, Some((1, 3))),
    (b"[^]]", b"]]a", 0, Some((2, 3))),
    (b"[^]]", b"]]", 0, None),
    (b"x*x*x*y", b"xxx", 0, None),
    (b"x*x*x*y", b"zxxy", 0, Some((1, 4))),
    (b"a*b*c*$", b"aabbccd", 0, Some((7, 7))),
    (b"^a*b*c*$", b"aabbcc", 0, Some((0, 6))),
    (b".*b.*", b"abcb", 0, Some((0, 4))),
    (b"a.*b", b"xaybzb", 0, Some((1, 6))),
    (b"[a-c]*d", b"abcabd", 0, Some((0, 6))),
    (b"[a-c]*d", b"abcxbcd", 0, Some((4, 7))),
    (b"[ab]*b", b"abab", 0, Some((0, 4))),
    (b"[ab]*ba", b"ababb", 0, Some((0, 3))),
    (b"[ab]*a[ab]", b"abaab", 0, Some((0, 5))),
    (b"a*ab", b"aaab", 0, Some((0, 4))),
    (b"[ab]*bc*", b"abbcb", 0, Some((0, 4))),
    (b".*.*.*x", b"aaaa", 0, None),
    (b".*.*.*x", b"aaxa", 0, Some((0, 3))),
    (b"b*a", b"bbcbba", 0, Some((3, 6))),
    (b"b*a", b"bbc", 0, None),
    (b"\x00", b"a\x00b", 0, Some((1, 2))),
    (b"\xff*", b"\xff\xffa", 0, Some((0, 2))),
    (b"[\x80-\xff]", b"ab\x80", 0, Some((2, 3))),
    (
        b"x*$",
        b"xxxxxxxxxxxxxxxxxxxxxxxxxxxxxxxxxxxxxxxxxxxxxxxxxxxxxxxxxxxxxxxxxxxxxxxxxxxxxxxxxxxxxxxxxxxxxxxxxxxxxxxxxxxxxxxxxxxxxxxxxxxxxxxxxxxxxxxxxxxxxxxxxxxxxxxxxxxxxxxxxxxxxxxxxxxxxxxxxxxxxxxxxxxxxxxxxxxxxxxxxxxxxxxxxxxxxxxxxxxxxxxxxxxxxxxxxxxxxxxxxxxxxxxxxxxxxxx",
        0,
        Some((0, 255)),
    ),
    (
        b"x*$",
        b"xxxxxxxxxxxxxxxxxxxxxxxxxxxxxxxxxxxxxxxxxxxxxxxxxxxxxxxxxxxxxxxxxxxxxxxxxxxxxxxxxxxxxxxxxxxxxxxxxxxxxxxxxxxxxxxxxxxxxxxxxxxxxxxxxxxxxxxxxxxxxxxxxxxxxxxxxxxxxxxxxxxxxxxxxxxxxxxxxxxxxxxxxxxxxxxxxxxxxxxxxxxxxxxxxxxxxxxxxxxxxxxxxxxxxxxxxxxxxxxxxxxxxxxxxxxxxxx",
        254,
        Some((254, 255)),
    ),
    (
        b"y",
        b"xxxxxxxxxxxxxxxxxxxxxxxxxxxxxxxxxxxxxxxxxxxxxxxxxxxxxxxxxxxxxxxxxxxxxxxxxxxxxxxxxxxxxxxxxxxxxxxxxxxxxxxxxxxxxxxxxxxxxxxxxxxxxxxxxxxxxxxxxxxxxxxxxxxxxxxxxxxxxxxxxxxxxxxxxxxxxxxxxxxxxxxxxxxxxxxxxxxxxxxxxxxxxxxxxxxxxxxxxxxxxxxxxxxxxxxxxxxxxxxxxxxxxxxxxxxxxxx",
        0,
        None,
    ),
    (
        b".$",
        b"xxxxxxxxxxxxxxxxxxxxxxxxxxxxxxxxxxxxxxxxxxxxxxxxxxxxxxxxxxxxxxxxxxxxxxxxxxxxxxxxxxxxxxxxxxxxxxxxxxxxxxxxxxxxxxxxxxxxxxxxxxxxxxxxxxxxxxxxxxxxxxxxxxxxxxxxxxxxxxxxxxxxxxxxxxxxxxxxxxxxxxxxxxxxxxxxxxxxxxxxxxxxxxxxxxxxxxxxxxxxxxxxxxxxxxxxxxxxxxxxxxxxxxxxxxxxxxx",
        0,
        Some((254, 255)),
    ),
];

#[test]
fn finds_the_first_longest(rt: HostRuntime) -> Result<(), Fail> {
    for (case, row) in SEARCHED.iter().enumerate() {
        let (part, line, from, expected) = *row;
        let pattern = Pattern::read(b'/', part)?;
        let found = find(&pattern, line, from)?.map(|found| (found.start, found.end));
        assert_eq!(rt; (case, found), (case, expected));
    }
    Ok(())
}

// A line of 255 bytes is searched, one of 256 is refused.
#[test]
fn refuses_long_lines(rt: HostRuntime) -> Result<(), Fail> {
    let pattern = Pattern::read(b'/', b"x$")?;
    let line = [b'x'; 256];
    assert_eq!(rt;
        find(&pattern, &line[0..255], 0),
        Ok(Some(Match {
            start: 254,
            end: 255,
        }))
    );
    assert_eq!(rt; find(&pattern, &line, 0), Err(MatchFault::LongLine));
    assert_eq!(rt; find(&pattern, &line, 1000), Err(MatchFault::LongLine));
    Ok(())
}
