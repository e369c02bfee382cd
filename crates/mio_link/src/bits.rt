//! The bits of a word.

ghost use Rattle.std.specs.Prelude.{◌≡◌, ◌≢◌, ℕ, ◌<◌, ◌≤◌};
ghost use Rattle.std.specs.Int.{bit_at};

/// The word with the bit set.
pub(crate) fn with_bit(word: u64, bit: usize) -> u64
    requires { bit < 64 }
    ensures set { bit_at result bit ≡ 1 }
    ensures others { (other : ℕ) → other ≢ bit → bit_at result other ≡ bit_at word other }
{
    word | (1u64 << bit)
}

/// The word with the bit clear.
pub(crate) fn without_bit(word: u64, bit: usize) -> u64
    requires { bit < 64 }
    ensures clear { bit_at result bit ≡ 0 }
    ensures others { (other : ℕ) → other < 64 → other ≢ bit → bit_at result other ≡ bit_at word other }
{
    word & !(1u64 << bit)
}

/// The word with the bits below this one clear.
pub(crate) fn from_bit(word: u64, bit: usize) -> u64
    requires { bit < 64 }
    ensures below { (other : ℕ) → other < bit → bit_at result other ≡ 0 }
    ensures others { (other : ℕ) → bit ≤ other → other < 64 → bit_at result other ≡ bit_at word other }
{
    word & (u64::MAX << bit)
}

/// The lowest bit that is set.
pub(crate) fn lowest_bit(word: u64) -> usize
    requires { 0 < word }
    ensures within { result < 64 }
    ensures set { bit_at word result ≡ 1 }
    ensures lowest { (other : ℕ) → other < result → bit_at word other ≡ 0 }
{
    word.trailing_zeros() as usize
}
