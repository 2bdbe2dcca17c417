//! Words of 64 bits.

ghost use Rattle.std.specs.Prelude.{◌≡◌, ℕ, ◌+◌, ◌^◌, ◌<◌, ◌≤◌};
ghost use Rattle.std.specs.Int.{bit_at};
ghost use Rattle.lists.specs.Bits.{is_set};
ghost use Rattle.bit_rows.specs.Rows.{set_below};

/// The bit at this place of a word, 0 or 1. The place is below 64.
pub fn bit(word: u64, place: u32) -> u32
    requires { place < 64 }
    ensures { result ≡ bit_at word place }
{
    (word >> place & 1) as u32
}

/// The word whose bits below this place are set, and no others. The place is below 64.
pub fn low_ones(place: u32) -> u64
    requires { place < 64 }
    ensures { result + 1 ≡ 2 ^ place }
{
    (1 << place) - 1
}

/// How many bits of the word are set below this place, which is below 64.
pub fn ones_below(word: u64, place: u32) -> u32
    requires { place < 64 }
    ensures count { result ≡ set_below word place }
    ensures few { result ≤ place }
{
    (word & low_ones(place)).count_ones()
}

/// A word whose bits are those of `word` one place higher, and the last that of `next` at 0.
pub fn down_word(word: u64, next: u64) -> u64
    ensures bits { (k : ℕ) → k < 63 → is_set result k ≡ is_set word (k + 1) }
    ensures last { is_set result 63 ≡ is_set next 0 }
{
    word >> 1 | next << 63
}

/// A word whose bits are those of `word` one place lower, and the first the last of `previous`.
pub fn up_word(word: u64, previous: u64) -> u64
    ensures bits { (k : ℕ) → k < 63 → is_set result (k + 1) ≡ is_set word k }
    ensures first { is_set result 0 ≡ is_set previous 63 }
{
    word << 1 | previous >> 63
}
