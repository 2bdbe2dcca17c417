//! Text that waits to be put.

ghost use Rattle.std.specs.Prelude.{◌≡◌, ◌+◌, ◌≤◌, [], ◌∷◌, ◌++◌, length};
ghost use Rattle.std.specs.Fmt.{decimal};
ghost use Rattle.iso_formats.specs.MeshText.{last_digits, millionths};
ghost use Rattle.off_write.specs.Pages.{page_size};

use std::marker::Model;

/// How many bytes a page holds.
pub(crate) const PAGE_SIZE: usize = 65_536;

/// Text that waits to be put to a sink, in order.
#[derive(Drop)]
pub(crate) struct Page {
    bytes: [u8; PAGE_SIZE],
    filled: usize,
}

impl Model for Page {
    ghost use Rattle.std.specs.Prelude.{ℕ, ◌≡◌, ◌≤◌, List, take, length};

    ghost Value = { List ℕ };

    ghost view = { λ page. take page.filled page.bytes };

    ghost invariant = { λ page. (page.filled ≤ 65536) × (length page.bytes ≡ 65536) };
}

// How many digits a number has.
fn digit_count(number: u64) -> usize
    ensures { result ≡ length (decimal number) }
{
    let mut count = 1;
    let mut left = number;
    while left >= 10_000 {
        left /= 10_000;
        count += 4;
    }
    if left < 10 {
        count
    } else if left < 100 {
        count + 1
    } else if left < 1000 {
        count + 2
    } else {
        count + 3
    }
}

impl Page {
    pub(crate) fn new() -> Page
        ensures { result ≡ [] }
    {
        Page {
            bytes: [0; PAGE_SIZE],
            filled: 0,
        }
    }

    pub(crate) fn len(&self) -> usize
        ensures { result ≡ length self.now }
    {
        self.filled
    }

    pub(crate) fn text(&self) -> &[u8]
        ensures { result.now ≡ self.now }
    {
        &self.bytes[..self.filled]
    }

    pub(crate) fn clear(&mut self)
        ensures { self.new ≡ [] }
    {
        self.filled = 0;
    }

    pub(crate) fn push(&mut self, byte: u8)
        requires { length self.old + 1 ≤ page_size }
        ensures { self.new ≡ self.old ++ byte ∷ [] }
    {
        self.bytes[self.filled] = byte;
        self.filled += 1;
    }

    pub(crate) fn push_all(&mut self, piece: &[u8])
        requires { length self.old + length piece.now ≤ page_size }
        ensures { self.new ≡ self.old ++ piece.now }
    {
        for byte in piece {
            self.push(*byte);
        }
    }

    pub(crate) fn push_number(&mut self, number: u64)
        requires { length self.old + 20 ≤ page_size }
        ensures text { self.new ≡ self.old ++ decimal number }
        ensures short { length self.new ≤ length self.old + 20 }
    {
        let end = self.filled + digit_count(number);
        self.filled = end;
        itoa::write_digits(number, &mut self.bytes, end);
    }

    // The last six digits of a number, with zeros.
    fn push_six(&mut self, number: u64)
        requires { length self.old + 6 ≤ page_size }
        ensures { self.new ≡ self.old ++ last_digits 6 number }
    {
        let at = self.filled;
        let digits = number % 1_000_000;
        self.bytes[at] = b'0' + (digits / 100_000) as u8;
        self.bytes[at + 1] = b'0' + (digits / 10_000 % 10) as u8;
        self.bytes[at + 2] = b'0' + (digits / 1000 % 10) as u8;
        self.bytes[at + 3] = b'0' + (digits / 100 % 10) as u8;
        self.bytes[at + 4] = b'0' + (digits / 10 % 10) as u8;
        self.bytes[at + 5] = b'0' + (digits % 10) as u8;
        self.filled = at + 6;
    }

    /// Appends a coordinate in millionths, with six decimals.
    pub(crate) fn push_coordinate(&mut self, coordinate: i64)
        requires { length self.old + 28 ≤ page_size }
        ensures text { self.new ≡ self.old ++ millionths coordinate }
        ensures short { length self.new ≤ length self.old + 28 }
    {
        if coordinate < 0 {
            self.push(b'-');
        }
        let size = coordinate.unsigned_abs();
        self.push_number(size / 1_000_000);
        self.push(b'.');
        self.push_six(size);
    }
}
