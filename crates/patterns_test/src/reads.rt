// Which bytes are a pattern, and of which anchors and items.
use patterns::Pattern;
use std::test::Fail;

// Delimiter, part, front anchor, items (`1`, or `*` for a starred one), end anchor.
static ACCEPTED: [(u8, &[u8], bool, &[u8], bool); 89] = [
    (b'/', b"a", false, b"1", false),
    (b'/', b"abc", false, b"111", false),
    (b'/', b"a*", false, b"*", false),
    (b'/', b"ab*c", false, b"1*1", false),
    (b'/', b".", false, b"1", false),
    (b'/', b".*", false, b"*", false),
    (b'/', b"^", true, b"", false),
    (b'/', b"$", false, b"", true),
    (b'/', b"^$", true, b"", true),
    (b'/', b"^a$", true, b"1", true),
    (b'/', b"a$b", false, b"111", false),
    (b'/', b"a^b", false, b"111", false),
    (b'/', b"$a", false, b"11", false),
    (b'/', b"a$$", false, b"11", true),
    (b'/', b"$$", false, b"1", true),
    (b'/', b"^^", true, b"1", false),
    (b'/', b"^^*", true, b"*", false),
    (b'/', b"a$*", false, b"1*", false),
    (b'/', b"a^*", false, b"1*", false),
    (b'/', b"$*", false, b"*", false),
    (b'/', b"^$*", true, b"*", false),
    (b'/', b"a*$*", false, b"**", false),
    (b'/', b"*", false, b"1", false),
    (b'/', b"**", false, b"*", false),
    (b'/', b"^*", true, b"1", false),
    (b'/', b"^**", true, b"*", false),
    (b'/', b"*a", false, b"11", false),
    (b'/', b"*$", false, b"1", true),
    (b'/', b"]", false, b"1", false),
    (b'/', b"]]", false, b"11", false),
    (b'/', b"a]*", false, b"1*", false),
    (b'/', b"\\.", false, b"1", false),
    (b'/', b"\\*", false, b"1", false),
    (b'/', b"\\**", false, b"*", false),
    (b'/', b"a\\**b", false, b"1*1", false),
    (b'/', b"\\[", false, b"1", false),
    (b'/', b"\\]", false, b"1", false),
    (b'/', b"\\\\", false, b"1", false),
    (b'/', b"\\^a", false, b"11", false),
    (b'/', b"^\\^", true, b"1", false),
    (b'/', b"a\\$", false, b"11", false),
    (b'/', b"a\\\\$", false, b"11", true),
    (b'/', b"\\/", false, b"1", false),
    (b'a', b"\\a", false, b"1", false),
    (b',', b"\\,b", false, b"11", false),
    (b'1', b"\\1*", false, b"*", false),
    (b'.', b"\\.", false, b"1", false),
    (b'*', b"\\*", false, b"1", false),
    (b'$', b"\\$", false, b"1", false),
    (b'^', b"\\^", false, b"1", false),
    (b'[', b"\\[", false, b"1", false),
    (b'-', b"\\-", false, b"1", false),
    (b'(', b"\\(", false, b"1", false),
    (b'\xff', b"\\\xff", false, b"1", false),
    (b'/', b"a/b", false, b"111", false),
    (b'a', b"aba", false, b"111", false),
    (b'*', b"a*", false, b"*", false),
    (b'/', b"[a]", false, b"1", false),
    (b'/', b"[a-z]*", false, b"*", false),
    (b'/', b"[^a]b", false, b"11", false),
    (b'/', b"[]]", false, b"1", false),
    (b'/', b"[]a]", false, b"1", false),
    (b'/', b"[^]]", false, b"1", false),
    (b'/', b"[^]a]*", false, b"*", false),
    (b'/', b"[a-]", false, b"1", false),
    (b'/', b"[-a]", false, b"1", false),
    (b'/', b"[--]", false, b"1", false),
    (b'/', b"[---]", false, b"1", false),
    (b'/', b"[.]", false, b"1", false),
    (b'/', b"[=]", false, b"1", false),
    (b'/', b"[:]", false, b"1", false),
    (b'/', b"[.[]", false, b"1", false),
    (b'/', b"[\\]", false, b"1", false),
    (b'/', b"[\\]]", false, b"11", false),
    (b'/', b"[\\/]", false, b"1", false),
    (b'/', b"[[]", false, b"1", false),
    (b'/', b"[a[]", false, b"1", false),
    (b'/', b"[[-a]", false, b"1", false),
    (b'/', b"[]-a]", false, b"1", false),
    (b'/', b"[]-]", false, b"1", false),
    (b'/', b"[a]b]", false, b"111", false),
    (b'/', b"[ab]$", false, b"1", true),
    (b'/', b"[$]", false, b"1", false),
    (b'/', b"^[^^]$", true, b"1", true),
    (b'/', b"[a-c]*[d-f]*$", false, b"**", true),
    (b'/', b"\x00\xff", false, b"11", false),
    (b'/', b"\x0a", false, b"1", false),
    (
        b'/',
        b"aaaaaaaaaaaaaaaaaaaaaaaaaaaaaaaaaaaaaaaaaaaaaaaaaaaaaaaaaaaaaaaa",
        false,
        b"1111111111111111111111111111111111111111111111111111111111111111",
        false,
    ),
    (
        b'/',
        b"^a*a*a*a*a*a*a*a*a*a*a*a*a*a*a*a*a*a*a*a*a*a*a*a*a*a*a*a*a*a*a*a*a*a*a*a*a*a*a*a*a*a*a*a*a*a*a*a*a*a*a*a*a*a*a*a*a*a*a*a*a*a*a*a*$",
        true,
        b"****************************************************************",
        true,
    ),
];

// Delimiter, part.
static REFUSED: [(u8, &[u8]); 46] = [
    (b'/', b""),
    (b'/', b"a**"),
    (b'/', b"^a**"),
    (b'/', b"***"),
    (b'/', b"^***"),
    (b'/', b".**"),
    (b'/', b"[a]**"),
    (b'/', b"\\.**"),
    (b'/', b"a*b**"),
    (b'/', b"\\"),
    (b'/', b"a\\"),
    (b'/', b"a*\\"),
    (b'/', b"\\a"),
    (b'/', b"\\-"),
    (b'/', b"\\n"),
    (b'/', b"\\("),
    (b',', b"\\/"),
    (b'b', b"\\a"),
    (b'/', b"["),
    (b'/', b"[a"),
    (b'/', b"[]"),
    (b'/', b"[^]"),
    (b'/', b"[^"),
    (b'/', b"[]a"),
    (b'/', b"[^]a"),
    (b'/', b"[a-"),
    (b'/', b"[a-z"),
    (b'/', b"a[b"),
    (b'/', b"[b-a]"),
    (b'/', b"[z-a]"),
    (b'/', b"[a--]"),
    (b'/', b"[a-c-a]d[e-d]"),
    (b'/', b"[[.]"),
    (b'/', b"[[=]"),
    (b'/', b"[[:]"),
    (b'/', b"[[.a.]]"),
    (b'/', b"[[:alpha:]]"),
    (b'/', b"[[=a=]]"),
    (b'/', b"[a[.]"),
    (b'/', b"[^[:]"),
    (b'/', b"[!-[.]"),
    (b'/', b"[!-[=]"),
    (b'/', b"[][:]"),
    (
        b'/',
        b"aaaaaaaaaaaaaaaaaaaaaaaaaaaaaaaaaaaaaaaaaaaaaaaaaaaaaaaaaaaaaaaaa",
    ),
    (
        b'/',
        b"aaaaaaaaaaaaaaaaaaaaaaaaaaaaaaaaaaaaaaaaaaaaaaaaaaaaaaaaaaaaaaaaa$",
    ),
    (
        b'/',
        b"^a*a*a*a*a*a*a*a*a*a*a*a*a*a*a*a*a*a*a*a*a*a*a*a*a*a*a*a*a*a*a*a*a*a*a*a*a*a*a*a*a*a*a*a*a*a*a*a*a*a*a*a*a*a*a*a*a*a*a*a*a*a*a*a*a*",
    ),
];

fn shown(starred: bool) -> u8 {
    if starred { b'*' } else { b'1' }
}

#[test]
fn reads_anchors_and_items(rt: HostRuntime) -> Result<(), Fail> {
    for (case, row) in ACCEPTED.iter().enumerate() {
        let (delimiter, part, front, items, back) = *row;
        let pattern = Pattern::read(delimiter, part)?;
        assert_eq!(rt; (case, pattern.has_front_anchor()), (case, front));
        assert_eq!(rt; (case, pattern.has_end_anchor()), (case, back));
        assert_eq!(rt; (case, pattern.items().len()), (case, items.len()));
        for (item, wanted) in pattern.items().iter().zip(items.iter()) {
            assert_eq!(rt; (case, shown(item.starred)), (case, *wanted));
        }
    }
    Ok(())
}

#[test]
fn refuses_bad_patterns(rt: HostRuntime) {
    for (case, row) in REFUSED.iter().enumerate() {
        let (delimiter, part) = *row;
        let fault = Pattern::read(delimiter, part)
            .err()
            .map(|fault| fault as u8);
        assert_eq!(rt; (case, fault), (case, Some(22)));
    }
}
