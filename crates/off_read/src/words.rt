//! What is known of a word of a file, without its text.

ghost use Rattle.std.specs.Prelude.{◌≡◌, ℕ, ◌+◌, ◌-◌, ◌*◌, ◌^◌, ◌<◌, ◌≤◌, ◌++◌, ◌∷◌, [], ◌||◌, min, take, List, length, codes, Some, None, if◌then◌else◌};
ghost use Rattle.std.specs.Char.{is_ascii_digit};
ghost use Rattle.lists.specs.Orders.{has, same_list};
ghost use Rattle.iso_formats.specs.HeaderLines.{is_empty, is_numeral, numeral_value};
ghost use Rattle.iso_formats.specs.MeshFile.{is_coordinate, is_count, is_index};
ghost use Rattle.off_read.specs.WordForms.{IsSoFar, capped_numeral, count_of, index_of, below};

use arrayvec::ArrayVec;
use std::marker::Model;

/// How many bytes at the front of a word are kept: more than any word has that is known by its bytes.
const FRONT: usize = 5;

/// Numbers stop here, above any that counts vertices or faces.
const CAP: u64 = 1 << 32;

/// What is known of a word: its line, its first bytes, what its bytes are, and the number that its digits write.
#[derive(Drop)]
pub(crate) struct Word {
    pub(crate) line: u32,
    front: ArrayVec<u8, FRONT>,
    // The number, up to `CAP`, where all bytes are digits.
    value: u64,
    all_digits: bool,
    some_digit: bool,
    coordinate: bool,
}

impl Model for Word {
    ghost use Rattle.std.specs.Prelude.{◌≤◌, ◌^◌};
    ghost use Rattle.off_read.specs.WordForms.{Known};

    ghost Value = { Known };

    ghost view = { λ w. record {
      line = w.line;
      front = w.front.items;
      value = w.value;
      all_digits = w.all_digits;
      some_digit = w.some_digit;
      coordinate = w.coordinate;
    } };

    ghost invariant = { λ w. w.value ≤ 2 ^ 32 };
}

impl Word {
    // A word of which no byte has come.
    pub(crate) fn new() -> Word
        ensures { IsSoFar result [] }
    {
        Word {
            line: 0,
            front: ArrayVec::new(),
            value: 0,
            all_digits: true,
            some_digit: false,
            coordinate: true,
        }
    }

    // Adds the next byte.
    pub(crate) fn push(&mut self, byte: u8)
        ensures { (text : List ℕ) → IsSoFar self.old text → IsSoFar self.new (text ++ byte ∷ []) }
    {
        let digit = byte.is_ascii_digit();
        push_front(&mut self.front, byte);
        self.value = next_value(self.value, byte);
        self.all_digits &= digit;
        self.some_digit |= digit;
        self.coordinate &= may_stand(byte);
    }

    // Adds the next bytes.
    pub(crate) fn push_all(&mut self, bytes: &[u8])
        ensures { (text : List ℕ) → IsSoFar self.old text → IsSoFar self.new (text ++ bytes.now) }
    {
        for byte in bytes {
            self.push(*byte);
        }
    }

    // Whether no byte has come.
    pub(crate) fn is_empty(&self) -> bool
        ensures { (text : List ℕ) → IsSoFar self.now text → result ≡ is_empty text }
    {
        self.front.is_empty()
    }

    // Whether the word is one of fewer than five bytes.
    pub(crate) fn is(&self, name: &[u8]) -> bool
        requires { length name.now < 5 }
        ensures { (text : List ℕ) → IsSoFar self.now text → result ≡ same_list text name.now }
    {
        self.front.as_slice() == name
    }

    // Whether the word is a coordinate.
    pub(crate) fn is_coordinate(&self) -> bool
        ensures { (text : List ℕ) → IsSoFar self.now text → result ≡ is_coordinate text }
    {
        self.coordinate && self.some_digit
    }

    // The number that the word writes, up to 2^32.
    fn numeral(&self) -> Option<u64>
        ensures { (text : List ℕ) → IsSoFar self.now text → result ≡ capped_numeral text }
    {
        if self.is_empty() || !self.all_digits {
            return None;
        }
        Some(self.value)
    }

    // Whether the word writes a number.
    pub(crate) fn is_numeral(&self) -> bool
        ensures { (text : List ℕ) → IsSoFar self.now text → result ≡ is_numeral text }
    {
        !self.is_empty() && self.all_digits
    }

    // The number of vertices or faces that the word writes.
    pub(crate) fn count(&self) -> Option<u32>
        ensures { (text : List ℕ) → IsSoFar self.now text → result ≡ count_of text }
    {
        number_below(self.numeral(), CAP)
    }

    // The vertex, of so many, that the word writes.
    pub(crate) fn index(&self, vertices: u32) -> Option<u32>
        ensures { (text : List ℕ) → IsSoFar self.now text → result ≡ index_of vertices text }
    {
        number_below(self.numeral(), u64::from(vertices))
    }
}

// Adds a byte to the first bytes of a word, where they are fewer than are kept.
fn push_front(front: &mut ArrayVec<u8, FRONT>, byte: u8)
    ensures { front.new.items ≡ take 5 (front.old.items ++ byte ∷ []) }
{
    if front.len() < FRONT {
        front.push(byte);
    }
}

// The number, up to `CAP`, that is written where a digit follows the digits of a number.
fn next_value(value: u64, digit: u8) -> u64
    requires { value ≤ 2 ^ 32 }
    ensures { result ≡ min (2 ^ 32) (value * 10 + (digit - 48)) }
{
    CAP.min(value * 10 + u64::from(digit.saturating_sub(b'0')))
}

// Whether a byte may stand in a coordinate.
fn may_stand(byte: u8) -> bool
    ensures { result ≡ (is_ascii_digit byte || has (codes "+-.eE") byte) }
{
    byte.is_ascii_digit() || matches!(byte, b'+' | b'-' | b'.' | b'e' | b'E')
}

// The number, where it is below a bound.
fn number_below(number: Option<u64>, bound: u64) -> Option<u32>
    requires { bound ≤ 2 ^ 32 }
    ensures { result ≡ below bound number }
{
    match number {
        Some(value) if value < bound => Some(value as u32),
        _ => None,
    }
}
