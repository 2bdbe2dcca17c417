//! Rows of bits, packed in words of 64.
//!
//! Bit x of a row is bit `x % 64` of word `x / 64`, and past the row's last word it is 0.
#![tactic(auto)]

mod ones;
mod rows;
mod samples;
mod words;

pub use ones::Ones;
pub use rows::{down, up, word_count};
pub use samples::{set_clear, set_signs, with_test};
pub use words::{bit, down_word, low_ones, ones_below, up_word};
