//! Rows of bits that tell something of samples.

ghost use Rattle.std.specs.Prelude.{◌≡◌, ℕ, ◌+◌, ◌-◌, ◌*◌, ◌^◌, ◌<◌, ◌≤◌, ◌==◌, ◌&&◌, ◌||◌, length, min, Some};
ghost use Rattle.lists.specs.Bits.{is_set};
ghost use Rattle.bit_rows.specs.Rows.{IsRowOf, IsWordOf, word_count};
ghost use Rattle.bit_rows.specs.SampleRows.{is_above, is_clear, is_clear_at};

use crate::words::low_ones;

/// Sets bit x of the row where sample x is at least the isovalue, and clears all others. The row has as many words as
/// the samples ask for.
pub fn set_signs(row: &mut [u64], samples: &[i64], iso: i64)
    requires { length row.old ≡ word_count (length samples.now) }
    ensures { IsRowOf (is_above iso samples.now) row.new }
{
    for w in 0..row.len() {
        row[w] = sign_word(samples, w, iso);
    }
}

/// Sets bit x of the row where sample x is not the blank value, or, where none is given, where there is a sample x;
/// clears all others. The row has as many words as the samples ask for.
pub fn set_clear(row: &mut [u64], samples: &[i64], blank: Option<i64>)
    requires { length row.old ≡ word_count (length samples.now) }
    ensures { IsRowOf (is_clear_at blank samples.now) row.new }
{
    for w in 0..row.len() {
        row[w] = clear_word(samples, w, blank);
    }
}

// Word `w` of the row whose bit x is set where sample x is at least the isovalue.
fn sign_word(samples: &[i64], w: usize, iso: i64) -> u64
    requires { 64 * w ≤ length samples.now }
    ensures { IsWordOf (is_above iso samples.now) w result }
{
    let first = 64 * w;
    let mut word = 0;
    for place in 0..count_from(samples, first) {
        word = with_test(word, place, samples[first + place] >= iso);
    }
    word
}

// Word `w` of the row whose bit x is set where there is a sample x that is not the blank value.
fn clear_word(samples: &[i64], w: usize, blank: Option<i64>) -> u64
    requires { 64 * w ≤ length samples.now }
    ensures { IsWordOf (is_clear_at blank samples.now) w result }
{
    match blank {
        None => all_ones(count_from(samples, 64 * w)),
        Some(value) => other_word(samples, w, value),
    }
}

// Word `w` of the row whose bit x is set where sample x is another value.
fn other_word(samples: &[i64], w: usize, value: i64) -> u64
    requires { 64 * w ≤ length samples.now }
    ensures { IsWordOf (is_clear_at (Some value) samples.now) w result }
{
    let first = 64 * w;
    let mut word = 0;
    for place in 0..count_from(samples, first) {
        word = with_test(word, place, is_other(samples[first + place], value));
    }
    word
}

// Whether a sample is another value.
fn is_other(sample: i64, value: i64) -> bool
    ensures { result ≡ is_clear (Some value) sample }
{
    sample != value
}

/// A word with the bit at this place set besides, where the test holds. The place is below 64.
pub fn with_test(word: u64, place: usize, test: bool) -> u64
    requires { place < 64 }
    ensures { (k : ℕ) → k < 64 → is_set result k ≡ (is_set word k || (k == place && test)) }
{
    word | u64::from(test) << place
}

// How many samples there are from this one on, up to 64.
fn count_from(samples: &[i64], first: usize) -> usize
    requires { first ≤ length samples.now }
    ensures { result ≡ min 64 (length samples.now - first) }
{
    (samples.len() - first).min(64)
}

// The word whose first bits are set, up to 64 of them.
fn all_ones(count: usize) -> u64
    requires { count ≤ 64 }
    ensures { result + 1 ≡ 2 ^ count }
{
    if count == 64 {
        u64::MAX
    } else {
        low_ones(count as u32)
    }
}
