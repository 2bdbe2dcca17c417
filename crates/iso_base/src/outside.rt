//! What a shelf and a sink are.

ghost use Rattle.std.specs.Prelude.{◌≡◌, ℕ, ◌<◌, ◌↔◌, List, [], length, Option, None, IsSome, IsOk, OnErr, IfOk};
ghost use Rattle.std.specs.Io.{ReadsAtMost, WritesAtMost};
ghost use Rattle.std.specs.Io.KnownBytes.{ReadConsumes, WriteAppends};
ghost use Rattle.iso_base.specs.Faults.{CountsFaults};
ghost use Rattle.iso_base.specs.Files.{Files, bytes_of, BeginsFile};

/// Memory was refused.
#[derive(Clone, Copy, Debug, PartialEq, Eq, Drop)]
pub struct Memory;

/// A call of a shelf or a sink failed.
#[derive(Clone, Copy, Debug, PartialEq, Eq, Drop)]
pub struct Failed {
    /// The count of faults after the call.
    pub count: u64,
}

/// Files by name, of which one at a time is begun and then taken from its first byte to its last.
///
/// A shelf may tell its files, and then tells the rest of the file that was begun as well. One that does not, as a
/// shelf over the files of the system, promises nothing of content. A sound shelf tells its files and gives each of
/// them without a fault.
pub trait Shelf {
    // The files, where they are told.
    ghost files: { Self → Option Files };
    // The rest of the file that was begun, where the files are told. It is empty where no file is begun.
    ghost rest: { Self → Option (List ℕ) };
    // How often a call failed. The count never falls, and stops at 2^64 - 1.
    ghost faults: { Self → ℕ };
    // Each file is given without a fault.
    ghost sound: { Self → Type 0 };

    /// Starts a file from its first byte. A name that is not there fails, and so may any other where the shelf is not
    /// sound. After a failure no file is begun.
    fn begin(&mut self, name: &str) -> Result<(), Failed>
        ensures faults { CountsFaults (faults self.old) (faults self.new) result }
        ensures stay { files self.new ≡ files self.old }
        ensures begun { BeginsFile (files self.old) (rest self.new) name.now result }
        ensures sound_stays { sound self.old → sound self.new }
        ensures sound_begins { sound self.old → IsSome (bytes_of (files self.old) name.now) → IsOk result };

    /// Writes the next bytes of the file to the front of `buf`, and says how many. It gives 0 only for an empty `buf`,
    /// at the end of the file, or where no file is begun. A failure leaves the rest of the file as it was.
    fn take(&mut self, buf: &mut [u8]) -> Result<usize, Failed>
        ensures faults { CountsFaults (faults self.old) (faults self.new) result }
        ensures stay { files self.new ≡ files self.old }
        ensures bound { ReadsAtMost result buf.new }
        ensures taken { ReadConsumes (rest self.old) (rest self.new) result buf.new }
        ensures sound_stays { sound self.old → sound self.new }
        ensures sound_takes { sound self.old → IsOk result };

    ghost sound_tells: { (shelf : Self) → sound shelf → IsSome (files shelf) };

    ghost rest_told: { (shelf : Self) → IsSome (files shelf) ↔ IsSome (rest shelf) };
}

/// A place to which bytes are put in order.
///
/// A sink may tell the bytes that were put so far. One that does not, as standard output, promises nothing of content.
pub trait Sink {
    // The bytes put so far, where they are told.
    ghost bytes: { Self → Option (List ℕ) };
    // How often a call failed. The count never falls, and stops at 2^64 - 1.
    ghost faults: { Self → ℕ };

    /// Takes bytes from the front of `buf`, and says how many: at least one of a piece that is not empty. A failure
    /// takes none.
    fn put(&mut self, buf: &[u8]) -> Result<usize, Failed>
        ensures faults { CountsFaults (faults self.old) (faults self.new) result }
        ensures bound { WritesAtMost result buf.now }
        ensures some { IfOk result (λ count. 0 < length buf.now → 0 < count) }
        ensures put { WriteAppends (bytes self.old) (bytes self.new) result buf.now };
}
