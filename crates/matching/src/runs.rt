// Runs of bytes at the front. They are two functions, since a bool that chose between them would say less at the calls.
ghost use Rattle.std.specs.Prelude.{◌≡◌, ℕ, ◌<◌, ◌≤◌, true, false, length, slice_index};
ghost use Rattle.patterns.specs.Sets.{has};
ghost use Rattle.patterns.specs.View.{members};

use patterns::ByteSet;

// How many bytes of the set stand at the front.
pub fn inside(set: &ByteSet, bytes: &[u8]) -> usize
    ensures few { result ≤ length bytes.now }
    ensures run { (k : ℕ) → k < result → has (members set.now) (slice_index bytes.now k) ≡ true }
    ensures stop { result < length bytes.now → has (members set.now) (slice_index bytes.now result) ≡ false }
{
    bytes
        .iter()
        .position(|byte| !set.has(*byte))
        .unwrap_or(bytes.len())
}

// How many bytes stand in front of the first of the set.
pub fn outside(set: &ByteSet, bytes: &[u8]) -> usize
    ensures few { result ≤ length bytes.now }
    ensures run { (k : ℕ) → k < result → has (members set.now) (slice_index bytes.now k) ≡ false }
{
    bytes
        .iter()
        .position(|byte| set.has(*byte))
        .unwrap_or(bytes.len())
}
