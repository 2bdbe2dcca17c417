//! Bytes put to a writer of std.

ghost use Rattle.std.specs.Prelude.{◌<◌, length, IfOk};
ghost use Rattle.std.specs.Io.{WritesAtMost};
ghost use Rattle.iso_base.specs.Faults.{CountsFaults};

use crate::faults::{fault, flush_again, write_again};
use iso_base::Failed;
use std::io::Write;

/// Writes some of `buf`, flushes, and says how many bytes were written: at least one of a piece that is not empty.
/// Whatever std fails at, and a write of no byte, is one fault.
pub fn put_flushed<W: Write>(writer: &mut W, faults: &mut u64, buf: &[u8]) -> Result<usize, Failed>
    ensures faults { CountsFaults faults.old faults.new result }
    ensures bound { WritesAtMost result buf.now }
    ensures some { IfOk result (λ count. 0 < length buf.now → 0 < count) }
{
    let written = write_again(writer, buf);
    let flushed = flush_again(writer);
    match written {
        Ok(count) if flushed.is_ok() && (count > 0 || buf.is_empty()) => Ok(count),
        _ => Err(fault(faults)),
    }
}
