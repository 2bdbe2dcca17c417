//! A shelf in memory.

ghost use Rattle.std.specs.Prelude.{◌≡◌, ℕ, ◌+◌, ◌^◌, ◌<◌, ◌≤◌, ◌↔◌, ◌++◌, [], length, take, drop, Some, None, IsTrue, IsSome, IsOk, is_err, OnErr, IfOk, MatchOption};
ghost use Rattle.std.proofs.Common.{rules};
ghost use Rattle.std.specs.Io.{ReadsAtMost};
ghost use Rattle.std.specs.Io.KnownBytes.{ReadConsumes};
ghost use Rattle.iso_base.specs.Faults.{CountsFaults};
ghost use Rattle.iso_base.specs.Files.{file_bytes, BeginsFile};
ghost use Rattle.iso_base.specs.Calls.{after_call, is_to_fail};
ghost use Rattle.iso_base.specs.InMemory.{names_differ, new_shelf, begin_fails, after_begin, taken_count, after_take};
ghost use Rattle.iso_base.specs.Places.{rest_from, IsWithin, TellsFile};

use crate::calls::Calls;
use crate::outside::{Failed, Shelf};
use std::marker::Model;

/// A file in memory, which contracts see as its name and its bytes.
#[derive(Drop)]
pub struct MemFile {
    /// The name by which a shelf begins the file.
    pub name: String,
    /// All its bytes.
    pub bytes: Vec<u8>,
}

impl Model for MemFile {
    ghost use Rattle.std.specs.Prelude.{ℕ, List, string_bytes};

    ghost Value = { List ℕ × List ℕ };

    ghost view = { λ f. (string_bytes f.name, f.bytes.items) };
}

/// A shelf over files in memory, which fails where it is told to.
///
/// Calls of `begin` and `take` are numbered from 0 in one count, which stops at 2^64 - 1. A call whose number the shelf
/// was told to fail does so, and besides these only a `begin` of a name that is not there. Each failure raises the count
/// of faults by one, up to 2^64 - 1. Contracts see the files, what is left of the file that was begun, how many bytes a
/// `take` gives at most, and the calls.
#[derive(Drop)]
pub struct MemShelf {
    files: Vec<MemFile>,
    // The place of the file that was begun, and of its next byte.
    begun: Option<usize>,
    start: usize,
    step: usize,
    calls: Calls,
}

impl Model for MemShelf {
    ghost use Rattle.std.specs.Prelude.{◌≤◌};
    ghost use Rattle.iso_base.specs.InMemory.{ShelfInMemory};
    ghost use Rattle.iso_base.specs.Places.{rest_from, IsWithin};

    ghost Value = { ShelfInMemory };

    ghost view = { λ s. record { files = s.files.items; rest = rest_from s.files.items s.begun s.start; step = s.step; calls = s.calls } };

    ghost invariant = { λ s. (1 ≤ s.step) × IsWithin s.files.items s.begun s.start };
}

impl MemShelf {
    /// A shelf over these files, whose names differ from each other. No file is begun, and no call was made. Calls whose
    /// numbers are in `fail` are to fail, and a `take` gives at most `step` bytes, which is at least 1.
    pub fn new(files: Vec<MemFile>, fail: Vec<u64>, step: usize) -> MemShelf
        requires names { IsTrue (names_differ files.items) }
        requires step { 1 ≤ step }
        ensures made { result ≡ new_shelf files.items fail.items step }

        // What it tells as a shelf.
        ensures files { ⟦<MemShelf as Shelf>⟧.files result ≡ Some files.items }
        ensures none_begun { ⟦<MemShelf as Shelf>⟧.rest result ≡ Some [] }
        ensures no_faults { ⟦<MemShelf as Shelf>⟧.faults result ≡ 0 }
        ensures sound { ⟦<MemShelf as Shelf>⟧.sound result ↔ (fail.items ≡ []) }
    {
        MemShelf {
            files,
            begun: None,
            start: 0,
            step,
            calls: Calls::new(fail),
        }
    }
}

// The place of the file of this name.
fn place_of(files: &[MemFile], name: &str) -> Option<usize>
    ensures { TellsFile files.now name.now result }
{
    for (place, file) in files.iter().enumerate() {
        if file.name.as_str() == name {
            return Some(place);
        }
    }
    None
}

// What is left of the file that was begun.
fn rest(files: &[MemFile], begun: Option<usize>, start: usize) -> &[u8]
    requires { IsWithin files.now begun start }
    ensures rest { result.now ≡ rest_from files.now begun start }
    ensures fits { start + length result.now < 2 ^ 64 }
{
    match begun {
        Some(place) => {
            let file = &files[place];
            let bytes = file.bytes.as_slice();
            &bytes[start..]
        }
        None => &[],
    }
}

impl Shelf for MemShelf {
    ghost files = { λ s. Some s.files };

    ghost rest = { λ s. Some s.rest };

    ghost faults = { λ s. s.calls.faults };

    ghost sound = { λ s. s.calls.fail ≡ [] };

    ghost sound_tells = { Prim.search rules };

    ghost rest_told = { Prim.search rules };

    fn begin(&mut self, name: &str) -> Result<(), Failed>
        ensures faults { CountsFaults self.old.calls.faults self.new.calls.faults result }
        ensures stay { self.new.files ≡ self.old.files }
        ensures begun { BeginsFile (Some self.old.files) (Some self.new.rest) name.now result }
        ensures sound_stays { self.old.calls.fail ≡ [] → self.new.calls.fail ≡ [] }
        ensures sound_begins { self.old.calls.fail ≡ [] → IsSome (file_bytes self.old.files name.now) → IsOk result }

        ensures fails { is_err result ≡ begin_fails self.old name.now }
        ensures after { self.new ≡ after_begin self.old name.now result }
    {
        self.start = 0;
        self.begun = None;
        if self.calls.start() {
            return Err(self.calls.fault());
        }
        self.begun = place_of(self.files.as_slice(), name);
        if self.begun.is_none() {
            return Err(self.calls.fault());
        }
        Ok(())
    }

    fn take(&mut self, buf: &mut [u8]) -> Result<usize, Failed>
        ensures faults { CountsFaults self.old.calls.faults self.new.calls.faults result }
        ensures stay { self.new.files ≡ self.old.files }
        ensures bound { ReadsAtMost result buf.new }
        ensures taken { ReadConsumes (Some self.old.rest) (Some self.new.rest) result buf.new }
        ensures sound_stays { self.old.calls.fail ≡ [] → self.new.calls.fail ≡ [] }
        ensures sound_takes { self.old.calls.fail ≡ [] → IsOk result }

        ensures fails { is_err result ≡ is_to_fail self.old.calls }
        ensures count { IfOk result (λ count. count ≡ taken_count self.old (length buf.old)) }
        ensures given { IfOk result (λ count. buf.new ≡ take count self.old.rest ++ drop count buf.old) }
        ensures after { IfOk result (λ count. self.new ≡ after_take self.old result count) }
        ensures kept { OnErr result (buf.new ≡ buf.old) }
        ensures failed { OnErr result (self.new ≡ record self.old { calls = after_call self.old.calls result }) }
    {
        if self.calls.start() {
            return Err(self.calls.fault());
        }
        let rest = rest(self.files.as_slice(), self.begun, self.start);
        let count = rest.len().min(self.step).min(buf.len());
        buf[..count].copy_from_slice(&rest[..count]);
        self.start += count;
        Ok(count)
    }
}

#[cfg(test)]
mod tests {
    use super::*;
    use std::alloc::{AllocError, Global};
    use std::test::Fail;

    fn file(alloc: Global, name: &str, bytes: &str) -> Result<MemFile, AllocError>
        ensures { IfOk result (λ file. file ≡ (name.now, bytes.now)) }
    {
        Ok(MemFile {
            name: String::from_str(alloc, name)?,
            bytes: Vec::from_slice(alloc, bytes.as_bytes())?,
        })
    }

    #[test]
    fn each_call_gives_bytes_or_fails(rt: HostRuntime) -> Result<(), Fail> {
        let alloc = rt.alloc();
        let mut files = Vec::new(alloc);
        files.push(file(alloc, "a", "abc")?)?;
        files.push(file(alloc, "b", "")?)?;
        let fail = Vec::from_slice(alloc, &[1, 6])?;
        let mut shelf = MemShelf::new(files, fail, 2);
        // The name to begin, or none to take into this much room; the bytes that come; the count of a failure, or 0.
        let calls = [
            ("", 4, "", 0),
            ("a", 0, "", 1),
            ("", 4, "", 0),
            ("a", 0, "", 0),
            ("", 4, "ab", 0),
            ("", 0, "", 0),
            ("", 4, "", 2),
            ("", 4, "c", 0),
            ("", 4, "", 0),
            ("a", 0, "", 0),
            ("", 1, "a", 0),
            ("c", 0, "", 3),
            ("", 4, "", 0),
            ("b", 0, "", 0),
            ("", 4, "", 0),
        ];
        for (number, (name, room, bytes, faults)) in calls.into_iter().enumerate() {
            let mut buf = [0; 4];
            let result = if name.is_empty() {
                shelf.take(&mut buf[..room.min(4)])
            } else {
                shelf.begin(name).map(|()| 0)
            };
            match result {
                Ok(count) => {
                    assert_eq!(rt; faults, 0, "call {number}");
                    assert_eq!(rt; buf[..count.min(4)], *bytes.as_bytes(), "call {number}");
                }
                Err(failed) => assert_eq!(rt; failed.count, faults, "call {number}"),
            }
        }
        Ok(())
    }
}
