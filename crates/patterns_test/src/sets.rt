// Which bytes the first item of a pattern takes.
use patterns::Pattern;
use std::test::Fail;

// Delimiter, part, the bytes that are taken or, if `true` stands in front of them, those that are not.
static TAKEN: [(u8, &[u8], bool, &[u8]); 36] = [
    (b'/', b".", true, b""),
    (b'/', b"a", false, b"a"),
    (b'/', b"*", false, b"*"),
    (b'/', b"$a", false, b"$"),
    (b'/', b"]", false, b"]"),
    (b'/', b"^^", false, b"^"),
    (b'/', b"\\.", false, b"."),
    (b'/', b"\\\\", false, b"\\"),
    (b'q', b"\\q", false, b"q"),
    (b'/', b"[abc]", false, b"abc"),
    (b'/', b"[a-e]", false, b"abcde"),
    (b'/', b"[^a-e]", true, b"abcde"),
    (b'/', b"[]]", false, b"]"),
    (b'/', b"[^]]", true, b"]"),
    (b'/', b"[]a]", false, b"]a"),
    (b'/', b"[a-]", false, b"a-"),
    (b'/', b"[-a]", false, b"-a"),
    (b'/', b"[--]", false, b"-"),
    (b'/', b"[%--]", false, b"%&'()*+,-"),
    (b'/', b"[a-c-e]", false, b"abc-e"),
    (b'/', b"[\\.]", false, b"\\."),
    (b'/', b"[[-^]", false, b"[\\]^"),
    (b'/', b"[]-a]", false, b"]^_`a"),
    (b'/', b"[]-]", false, b"]-"),
    (b'/', b"[a^]", false, b"a^"),
    (b'/', b"[^^]", true, b"^"),
    (b'/', b"[0-9a-f]", false, b"0123456789abcdef"),
    (b'/', b"[$.*]", false, b"$.*"),
    (b'/', b"[a-a]", false, b"a"),
    (b'/', b"[=:]", false, b"=:"),
    (b'/', b"[\x00-\xff]", true, b""),
    (b'/', b"[\xfe-\xff]", false, b"\xfe\xff"),
    (b'/', b"[^\x00-\xfe]", false, b"\xff"),
    (b'/', b"[?-@]", false, b"?@"),
    (b'/', b"[\x7f-\x80]", false, b"\x7f\x80"),
    (b'/', b"[aa]", false, b"a"),
];

#[test]
fn takes_exactly_these(rt: HostRuntime) -> Result<(), Fail> {
    for (case, row) in TAKEN.iter().enumerate() {
        let (delimiter, part, outside, bytes) = *row;
        let pattern = Pattern::read(delimiter, part)?;
        let [first, ..] = pattern.items() else {
            return Err(Fail::new("a pattern without an item"));
        };
        for byte in 0..=u8::MAX {
            let wanted = bytes.contains(&byte) != outside;
            assert_eq!(rt; (case, byte, first.set.has(byte)), (case, byte, wanted));
        }
    }
    Ok(())
}
