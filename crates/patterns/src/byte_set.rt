// A set of bytes in 256 bits.
ghost use Rattle.std.specs.Prelude.{◌≡◌, ◌≤◌, length};
ghost use Rattle.patterns.specs.Bits.{table_of};
ghost use Rattle.patterns.specs.Sets.{no_bytes, every, just, has, with_span, others};

const WORDS: usize = 4;

const WORD_BITS: u8 = 64;

// Byte b is bit b % 64 of word b / 64.
#[derive(Clone, Copy)]
pub struct ByteSet {
    words: [u64; WORDS],
    ghost full: { length words ≡ 4 },
}

// No byte.
impl Default for ByteSet {
    ghost is_default = { λ set. table_of set.words ≡ no_bytes };

    fn default() -> ByteSet {
        ByteSet { words: [0; WORDS] }
    }
}

impl ByteSet {
    #[tactic(auto, unfolding(crate::specs::Sets::those))]
    pub(crate) fn every() -> ByteSet
        ensures { table_of result.words ≡ every }
    {
        ByteSet {
            words: [u64::MAX; WORDS],
        }
    }

    #[tactic(auto, using(crate::proofs::Tables::span_just))]
    pub(crate) fn just(byte: u8) -> ByteSet
        ensures { table_of result.words ≡ just byte }
    {
        let mut set = ByteSet::default();
        set.insert(byte);
        set
    }

    #[tactic(auto, using(crate::proofs::Words::has_bit))]
    pub fn has(&self, byte: u8) -> bool
        ensures { result ≡ has (table_of self.now.words) byte }
    {
        let word = self.words[(byte / WORD_BITS) as usize];
        word >> (byte % WORD_BITS) & 1 == 1
    }

    #[tactic(auto, using(crate::proofs::Words::insert_table))]
    pub(crate) fn insert(&mut self, byte: u8)
        ensures { table_of self.new.words ≡ with_span byte byte (table_of self.old.words) }
    {
        let place = (byte / WORD_BITS) as usize;
        self.words[place] |= 1 << (byte % WORD_BITS);
    }

    // Adds the bytes from `low` to `high`.
    #[tactic(auto, using(crate::proofs::Tables::span_none, crate::proofs::Tables::span_more, crate::proofs::Tables::span_all))]
    pub(crate) fn insert_span(&mut self, low: u8, high: u8)
        requires { low ≤ high }
        ensures { table_of self.new.words ≡ with_span low high (table_of self.old.words) }
    {
        for byte in low..=high {
            self.insert(byte);
        }
    }

    pub(crate) fn complement(&self) -> ByteSet
        ensures { table_of result.words ≡ others (table_of self.now.words) }
    {
        ByteSet {
            words: self.words.map(|word| !word),
        }
    }
}
