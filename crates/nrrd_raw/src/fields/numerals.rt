//! Numbers in a header: one or more digits, with leading zeros as may be.

ghost use Rattle.std.specs.Prelude.{◌≡◌, ℕ, ◌+◌, ◌*◌, ◌≤◌, ◌<◌, ◌^◌, length, slice_index, true, false, Some, None, IfSome, if◌then◌else◌};
ghost use Rattle.std.specs.Option.{option_map};
ghost use Rattle.iso_formats.specs.HeaderLines as lines;
ghost use Rattle.nrrd_raw.specs.Names.{sizes_view};
ghost use Rattle.nrrd_raw.specs.Names as names;

use crate::fields::values::Sizes;
use crate::lines::content::is_blank;

/// The number that the text writes, where it is a number from `low` to `high`.
pub(crate) fn numeral_within(text: &[u8], low: u64, high: u64) -> Option<u64>
    requires { high < 2 ^ 32 }
    ensures within { IfSome result (λ n. (low ≤ n) × (n ≤ high)) }
    ensures value { result ≡ names.numeral_within low high text.now }
{
    if text.is_empty() {
        return None;
    }
    // A number that passes `high` stays above it, however many digits follow.
    let mut value = 0u64;
    for at in 0..text.len() {
        if !text[at].is_ascii_digit() {
            return None;
        }
        value = (value * 10 + u64::from(text[at] - b'0')).min(high + 1);
    }
    if low <= value && value <= high {
        Some(value)
    } else {
        None
    }
}

/// A number with value 0.
pub(crate) fn is_zero(value: &[u8]) -> bool
    ensures { result ≡ lines.is_zero value.now }
{
    numeral_within(value, 0, 0).is_some()
}

/// A dimension that is read.
pub(crate) fn dimension_of(value: &[u8]) -> Option<u8>
    ensures within { IfSome result (λ n. (2 ≤ n) × (n ≤ 4)) }
    ensures value { result ≡ lines.dimension_of value.now }
{
    let n = numeral_within(value, 2, 4)?;
    Some(n as u8)
}

/// One to four numbers, separated by blanks, each from 1 to 4,294,967,295.
pub(crate) fn sizes_of(value: &[u8]) -> Option<Sizes>
    ensures { option_map sizes_view result ≡ lines.sizes_of value.now }
{
    let mut count = 0u8;
    let mut places = [1u64; 4];
    let mut at = word_from(value, 0);
    while at < value.len() {
        let end = word_end(value, at);
        let size = numeral_within(&value[at..end], 1, 4294967295)?;
        if count == 4 {
            return None;
        }
        places[usize::from(count)] = size;
        count += 1;
        at = word_from(value, end);
    }
    if count == 0 {
        None
    } else {
        Some(Sizes { count, places })
    }
}

/// The place of the first byte from `from` on that is no blank, or the length where there is none.
fn word_from(value: &[u8], from: usize) -> usize
    requires { from ≤ length value.now }
    ensures later { from ≤ result }
    ensures within { result ≤ length value.now }
    ensures blank { (k : ℕ) → from ≤ k → k < result → lines.is_blank (slice_index value.now k) ≡ true }
    ensures word { result < length value.now → lines.is_blank (slice_index value.now result) ≡ false }
{
    for at in from..value.len() {
        if !is_blank(value[at]) {
            return at;
        }
    }
    value.len()
}

/// The place of the first blank behind `from`, or the length where there is none.
fn word_end(value: &[u8], from: usize) -> usize
    requires { from < length value.now }
    ensures later { from < result }
    ensures within { result ≤ length value.now }
    ensures word { (k : ℕ) → from < k → k < result → lines.is_blank (slice_index value.now k) ≡ false }
    ensures blank { result < length value.now → lines.is_blank (slice_index value.now result) ≡ true }
{
    for at in from + 1..value.len() {
        if is_blank(value[at]) {
            return at;
        }
    }
    value.len()
}
