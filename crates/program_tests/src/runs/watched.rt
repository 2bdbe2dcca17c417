//! A shelf and a sink that see to it how they are called.

ghost use Rattle.std.specs.Prelude.{◌≡◌, ◌≤◌, None, ⊤};
ghost use Rattle.std.proofs.Common.{rules};
ghost use Rattle.iso_base.specs.Faults.{Rose};

use iso_base::{Failed, MemShelf, MemSink, Shelf, Sink};

// Counts a fault, up to 2^64 - 1.
fn fault(faults: &mut u64) -> Failed
    ensures later { faults.old ≤ faults.new }
    ensures rose { Rose faults.old faults.new }
    ensures counted { result.count ≡ faults.new }
{
    *faults = faults.saturating_add(1);
    Failed { count: *faults }
}

/// A shelf of which no call takes bytes with an empty buffer, nor once the end of the file was seen.
#[derive(Drop)]
pub(super) struct WatchedShelf {
    shelf: MemShelf,
    faults: u64,
    ended: bool,
    is_called_rightly: bool,
}

impl WatchedShelf {
    pub(super) fn new(shelf: MemShelf) -> WatchedShelf {
        WatchedShelf {
            shelf,
            faults: 0,
            ended: false,
            is_called_rightly: true,
        }
    }

    /// No such call was made.
    pub(super) fn is_called_rightly(&self) -> bool {
        self.is_called_rightly
    }
}

impl Shelf for WatchedShelf {
    ghost files = { λ _. None };

    ghost rest = { λ _. None };

    ghost faults = { λ s. s.faults };

    ghost sound = { λ _. ⊥ };

    ghost sound_tells = { Prim.search rules };

    ghost rest_told = { Prim.search rules };

    fn begin(&mut self, name: &str) -> Result<(), Failed> {
        self.ended = false;
        match self.shelf.begin(name) {
            Ok(()) => Ok(()),
            Err(_) => Err(fault(&mut self.faults)),
        }
    }

    fn take(&mut self, buf: &mut [u8]) -> Result<usize, Failed> {
        if self.ended || buf.is_empty() {
            self.is_called_rightly = false;
        }
        match self.shelf.take(buf) {
            Ok(count) => {
                self.ended = count == 0;
                Ok(count)
            }
            Err(_) => Err(fault(&mut self.faults)),
        }
    }
}

/// A sink to which no empty piece is put.
#[derive(Drop)]
pub(super) struct WatchedSink {
    sink: MemSink,
    faults: u64,
    is_called_rightly: bool,
}

impl WatchedSink {
    pub(super) fn new(sink: MemSink) -> WatchedSink {
        WatchedSink {
            sink,
            faults: 0,
            is_called_rightly: true,
        }
    }

    /// No such call was made.
    pub(super) fn is_called_rightly(&self) -> bool {
        self.is_called_rightly
    }

    pub(super) fn bytes(&self) -> &[u8] {
        self.sink.bytes()
    }
}

impl Sink for WatchedSink {
    ghost bytes = { λ _. None };

    ghost faults = { λ s. s.faults };

    fn put(&mut self, buf: &[u8]) -> Result<usize, Failed> {
        if buf.is_empty() {
            self.is_called_rightly = false;
        }
        match self.sink.put(buf) {
            Ok(count) => Ok(count),
            Err(_) => Err(fault(&mut self.faults)),
        }
    }
}
