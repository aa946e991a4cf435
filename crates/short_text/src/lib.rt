// Short texts: bytes held in place with their number.
#![tactic(auto)]

ghost use Rattle.std.specs.Prelude.{◌≡◌, ◌≤◌, true, false, [], ◌++◌, length, take, MatchOption, nat_lt};

// A text of at most `N` bytes. No call allocates, and what holds such a text is `Copy`, which an `ArrayVec` is not.
#[derive(Clone, Copy)]
pub struct ShortText<const N: usize> {
    bytes: [u8; N],
    len: usize,
    ghost full: { length bytes ≡ N },
    ghost within: { len ≤ N },
}

impl<const N: usize> ShortText<N> {
    // The empty text.
    pub fn new() -> ShortText<N>
        ensures { take result.len result.bytes ≡ [] }
    {
        ShortText {
            bytes: [0u8; N],
            len: 0,
        }
    }

    pub fn text(&self) -> &[u8]
        ensures { result.now ≡ take self.now.len self.now.bytes }
    {
        let len = self.len;
        &self.bytes[..len]
    }

    // A text by itself, if it is not too long.
    pub fn of(text: &[u8]) -> Option<ShortText<N>>
        ensures { MatchOption result (nat_lt N (length text.now) ≡ true) (λ t. (nat_lt N (length text.now) ≡ false) × (take t.len t.bytes ≡ text.now)) }
    {
        ShortText::new().with(text)
    }

    // With more bytes behind it, if that is not too long.
    pub fn with(&self, more: &[u8]) -> Option<ShortText<N>>
        ensures { MatchOption result (nat_lt N (length (take self.now.len self.now.bytes ++ more.now)) ≡ true) (λ t. (nat_lt N (length (take self.now.len self.now.bytes ++ more.now)) ≡ false) × (take t.len t.bytes ≡ take self.now.len self.now.bytes ++ more.now)) }
    {
        let len = self.len;
        if more.len() > N - len {
            return None;
        }
        let end = len + more.len();
        let mut bytes = self.bytes;
        let all = &mut bytes[..];
        all[len..end].copy_from_slice(more);
        Some(ShortText { bytes, len: end })
    }
}
