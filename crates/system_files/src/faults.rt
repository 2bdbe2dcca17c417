//! The count of faults that each adapter keeps, and calls tried again.

ghost use Rattle.std.specs.Prelude.{◌≡◌, ◌≤◌};
ghost use Rattle.std.specs.Io.{ReadsAtMost, WritesAtMost};
ghost use Rattle.iso_base.specs.Faults.{Rose};

use iso_base::Failed;
use std::io;
use std::io::{ErrorKind, Read, Write};

/// Counts a fault, up to 2^64 - 1.
pub fn fault(faults: &mut u64) -> Failed
    ensures later { faults.old ≤ faults.new }
    ensures rose { Rose faults.old faults.new }
    ensures counted { result.count ≡ faults.new }
{
    *faults = faults.saturating_add(1);
    Failed { count: *faults }
}

/// A read, tried again where a signal interrupted it.
pub fn read_again<R: Read>(reader: &mut R, buf: &mut [u8]) -> io::Result<usize>
    ensures { ReadsAtMost result buf.new }
{
    for _ in 0..u64::MAX {
        match reader.read(buf) {
            Err(error) if error.kind() == ErrorKind::Interrupted => {}
            result => return result,
        }
    }
    Err(io::Error::from(ErrorKind::Interrupted))
}

/// A write, tried again where a signal interrupted it.
pub fn write_again<W: Write>(writer: &mut W, buf: &[u8]) -> io::Result<usize>
    ensures { WritesAtMost result buf.now }
{
    for _ in 0..u64::MAX {
        match writer.write(buf) {
            Err(error) if error.kind() == ErrorKind::Interrupted => {}
            result => return result,
        }
    }
    Err(io::Error::from(ErrorKind::Interrupted))
}

/// A flush, tried again where a signal interrupted it.
pub fn flush_again<W: Write>(writer: &mut W) -> io::Result<()> {
    for _ in 0..u64::MAX {
        match writer.flush() {
            Err(error) if error.kind() == ErrorKind::Interrupted => {}
            result => return result,
        }
    }
    Err(io::Error::from(ErrorKind::Interrupted))
}
