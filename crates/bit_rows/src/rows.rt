//! Rows of words, moved by one place.

ghost use Rattle.std.specs.Prelude.{◌≡◌, ℕ, ◌<◌, length};
ghost use Rattle.bit_rows.specs.Rows.{IsWordOf, moved_down, moved_up, word_count as count_of};

use crate::words::{down_word, up_word};

/// How many words a row of this many bits has.
pub fn word_count(bits: usize) -> usize
    ensures { result ≡ count_of bits }
{
    bits.div_ceil(64)
}

/// Word `w` of the row moved down by one place: its bit x is bit x + 1 of the row.
pub fn down(row: &[u64], w: usize) -> u64
    requires { w < length row.now }
    ensures { IsWordOf (moved_down row.now) w result }
{
    let next = if w + 1 < row.len() { row[w + 1] } else { 0 };
    down_word(row[w], next)
}

/// Word `w` of the row moved up by one place: its bit x is bit x - 1 of the row, and bit 0 is 0.
pub fn up(row: &[u64], w: usize) -> u64
    requires { w < length row.now }
    ensures { IsWordOf (moved_up row.now) w result }
{
    let previous = if w > 0 { row[w - 1] } else { 0 };
    up_word(row[w], previous)
}
