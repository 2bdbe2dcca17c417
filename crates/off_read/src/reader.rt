//! The words of a file, one after another, read through a buffer.

ghost use Rattle.std.specs.Prelude.{◌≡◌, ℕ, ◌+◌, ◌<◌, ◌≤◌, [], List, length, take, true, OnOk, IfOk, IfErr, IsNone};
ghost use Rattle.std.specs.List.{list_all};
ghost use Rattle.iso_base.specs.Shelves.{IsSameShelf};
ghost use Rattle.iso_formats.specs.MeshFile.{is_gap};
ghost use Rattle.off_read.specs.Faults.{BlamesFairly, blame_of};
ghost use Rattle.off_read.specs.Scans.{new_scan, lines_passed, without_line, Gives, GivesByte, Refills, IsSeen, Fails, Drains, is_passing};
ghost use Rattle.off_read.specs.Scans.{Runs, is_word_byte};
ghost use Rattle.off_read.specs.ScanForms.{limit};
ghost use Rattle.off_read.specs.WordForms.{IsSoFar};

use crate::faults::OffFault;
use crate::words::Word;
use iso_base::Shelf;
use std::marker::Model;

/// How many bytes are asked of a shelf at once.
const PIECE: usize = 65536;

/// The most bytes that a file has.
const LIMIT: usize = 1 << 30;

/// Where in its line a reader stands.
#[derive(Clone, Copy, Debug, PartialEq, Eq)]
pub(crate) enum Place {
    /// No byte of the line has come.
    LineStart,
    /// Bytes of the line have come, and no comment has begun.
    OnLine,
    /// The rest of the line is passed over.
    Passing,
}

/// A reader of the words of a file, which holds a piece of its bytes.
///
/// Contracts see the bytes that came and were not looked at yet, how many came, how many lines ended, and the place.
#[derive(Drop)]
pub(crate) struct Reader {
    piece: [u8; PIECE],
    start: usize,
    end: usize,
    taken: usize,
    ended: u32,
    place: Place,
}

impl Model for Reader {
    ghost use Rattle.std.specs.Prelude.{◌≤◌, ◌+◌, ◌-◌, take, drop};
    ghost use Rattle.off_read.specs.ScanForms as Scans;

    ghost Value = { Scans.Scan };

    ghost view = { λ r. record {
      left = take (r.end - r.start) (drop r.start r.piece);
      taken = r.taken;
      ended = r.ended;
      place = r.place;
    } };

    ghost invariant = { λ r. (r.start ≤ r.end) × (r.end ≤ 65536)
        × (r.ended + (r.end - r.start) ≤ r.taken) × (r.taken ≤ Scans.limit + 1) };
}

impl Reader {
    // A reader before the first byte of a file.
    pub(crate) fn new() -> Reader
        ensures { result ≡ new_scan }
    {
        Reader {
            piece: [0; PIECE],
            start: 0,
            end: 0,
            taken: 0,
            ended: 0,
            place: Place::LineStart,
        }
    }

    // How many lines the file has, where it ends here.
    pub(crate) fn lines(&self) -> u32
        ensures { result ≡ lines_passed self.now }
    {
        match self.place {
            Place::LineStart => self.ended,
            _ => self.ended + 1,
        }
    }

    // Passes over the rest of the line of the word that was given last.
    pub(crate) fn pass_line(&mut self)
        ensures { self.new ≡ without_line self.old }
    {
        if self.place == Place::OnLine {
            self.place = Place::Passing;
        }
    }

    // The next word, or none where the file has no more.
    pub(crate) fn next_word<S: Shelf>(&mut self, shelf: &mut S) -> Result<Option<Word>, OffFault>
        requires { self.old.taken ≤ limit }
        ensures shelf { IsSameShelf S.faults S.files S.sound shelf.old shelf.new }
        ensures blames { BlamesFairly S.faults shelf.old shelf.new result }
        ensures sound { S.sound shelf.old → IfErr result (λ fault. IsNone (blame_of fault)) }
        ensures gives { IfOk result (Gives (S.rest shelf.old) (S.rest shelf.new) self.old self.new) }
        ensures fails { IfErr result (Fails (S.rest shelf.old) (S.rest shelf.new) self.old self.new) }
    {
        let mut word = Word::new();
        self.take_run(&mut word);
        while let Some(byte) = self.next_byte(shelf)? {
            if self.see(byte, &mut word) {
                word.line = self.lines();
                return Ok(Some(word));
            }
            self.take_run(&mut word);
        }
        if word.is_empty() {
            return Ok(None);
        }
        word.line = self.lines();
        Ok(Some(word))
    }

    // Takes all that is left of a file.
    pub(crate) fn drain<S: Shelf>(&mut self, shelf: &mut S) -> Result<(), OffFault>
        requires { self.old.taken ≤ limit }
        ensures shelf { IsSameShelf S.faults S.files S.sound shelf.old shelf.new }
        ensures blames { BlamesFairly S.faults shelf.old shelf.new result }
        ensures sound { S.sound shelf.old → IfErr result (λ fault. IsNone (blame_of fault)) }
        ensures drains { OnOk result (Drains (S.rest shelf.old) (S.rest shelf.new) self.old self.new) }
        ensures fails { IfErr result (Fails (S.rest shelf.old) (S.rest shelf.new) self.old self.new) }
    {
        self.start = self.end;
        while self.refill(shelf)? {
            self.start = self.end;
        }
        Ok(())
    }

    // Looks at a byte, as it stands behind the bytes of a word that came so far, and answers whether the word ends.
    fn see(&mut self, byte: u8, word: &mut Word) -> bool
        requires { self.old.ended + length self.old.left < self.old.taken }
        ensures kept { (self.new.left ≡ self.old.left) × (self.new.taken ≡ self.old.taken) }
        ensures ended { self.new.ended ≤ self.old.ended + 1 }
        ensures seen { IsSeen self.old self.new word.old word.new byte result }
    {
        if byte == b'\n' {
            self.ended += 1;
            self.place = Place::LineStart;
            return !word.is_empty();
        }
        if self.is_passing() {
            return false;
        }
        if byte == b'#' {
            self.place = Place::Passing;
            return !word.is_empty();
        }
        self.place = Place::OnLine;
        if is_gap(byte) {
            return !word.is_empty();
        }
        word.push(byte);
        false
    }

    // Takes bytes of one word at the front of those that are left, where the reader stands on a line.
    fn take_run(&mut self, word: &mut Word)
        ensures { Runs self.old self.new word.old word.new }
    {
        if self.place != Place::OnLine {
            return;
        }
        let left = &self.piece[self.start..self.end];
        let count = run_length(left);
        word.push_all(&left[..count]);
        self.start += count;
    }

    // The next byte, or none at the end of the file.
    fn next_byte<S: Shelf>(&mut self, shelf: &mut S) -> Result<Option<u8>, OffFault>
        requires { self.old.taken ≤ limit }
        ensures shelf { IsSameShelf S.faults S.files S.sound shelf.old shelf.new }
        ensures blames { BlamesFairly S.faults shelf.old shelf.new result }
        ensures sound { S.sound shelf.old → IfErr result (λ fault. IsNone (blame_of fault)) }
        ensures gives { IfOk result (GivesByte (S.rest shelf.old) (S.rest shelf.new) self.old self.new) }
        ensures fails { IfErr result (Fails (S.rest shelf.old) (S.rest shelf.new) self.old self.new) }
    {
        if !self.has_byte(shelf)? {
            return Ok(None);
        }
        let byte = self.piece[self.start];
        self.start += 1;
        Ok(Some(byte))
    }

    // Whether a byte is left, or comes.
    fn has_byte<S: Shelf>(&mut self, shelf: &mut S) -> Result<bool, OffFault>
        requires { self.old.taken ≤ limit }
        ensures shelf { IsSameShelf S.faults S.files S.sound shelf.old shelf.new }
        ensures blames { BlamesFairly S.faults shelf.old shelf.new result }
        ensures sound { S.sound shelf.old → IfErr result (λ fault. IsNone (blame_of fault)) }
        ensures gives { IfOk result (Refills (S.rest shelf.old) (S.rest shelf.new) self.old self.new) }
        ensures fails { IfErr result (Fails (S.rest shelf.old) (S.rest shelf.new) self.old self.new) }
    {
        if self.start < self.end {
            return Ok(true);
        }
        self.refill(shelf)
    }

    // Whether the rest of the line is passed over.
    fn is_passing(&self) -> bool
        ensures { result ≡ is_passing self.now.place }
    {
        match self.place {
            Place::Passing => true,
            _ => false,
        }
    }

    // Takes a piece, where the one before it was looked at, and answers whether bytes came.
    fn refill<S: Shelf>(&mut self, shelf: &mut S) -> Result<bool, OffFault>
        requires empty { self.old.left ≡ [] }
        requires few { self.old.taken ≤ limit }
        ensures shelf { IsSameShelf S.faults S.files S.sound shelf.old shelf.new }
        ensures blames { BlamesFairly S.faults shelf.old shelf.new result }
        ensures sound { S.sound shelf.old → IfErr result (λ fault. IsNone (blame_of fault)) }
        ensures gives { IfOk result (Refills (S.rest shelf.old) (S.rest shelf.new) self.old self.new) }
        ensures fails { IfErr result (Fails (S.rest shelf.old) (S.rest shelf.new) self.old self.new) }
    {
        let room = PIECE.min(LIMIT + 1 - self.taken);
        let count = match shelf.take(&mut self.piece[..room]) {
            Ok(count) => count,
            Err(failed) => return Err(OffFault::Shelf(failed.count)),
        };
        self.start = 0;
        self.end = count;
        self.taken += count;
        if self.taken > LIMIT {
            return Err(OffFault::Long);
        }
        Ok(count > 0)
    }
}

// How many bytes at the front may stand in one word.
fn run_length(bytes: &[u8]) -> usize
    ensures within { result ≤ length bytes.now }
    ensures right { list_all is_word_byte (take result bytes.now) ≡ true }
{
    for (place, byte) in bytes.iter().enumerate() {
        if !is_word_byte(*byte) {
            return place;
        }
    }
    bytes.len()
}

// Whether a byte may stand in a word.
fn is_word_byte(byte: u8) -> bool
    ensures { result ≡ is_word_byte byte }
{
    !is_gap(byte) && byte != b'\n' && byte != b'#'
}

// Whether a byte stands between words.
fn is_gap(byte: u8) -> bool
    ensures { result ≡ is_gap byte }
{
    matches!(byte, b' ' | b'\t' | b'\r')
}
