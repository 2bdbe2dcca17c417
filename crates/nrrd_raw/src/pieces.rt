//! Bytes from a shelf.

ghost use Rattle.std.specs.Prelude.{◌≡◌, ◌≤◌, length, IsOk, IfOk, IfErr, IsSome};
ghost use Rattle.nrrd_raw.specs.GridFaultWords.{BlamesFairly, blame_of};
ghost use Rattle.std.specs.Io.KnownBytes.{Keeps};
ghost use Rattle.iso_base.specs.Shelves.{IsSameShelf, TakesAtMost};
ghost use Rattle.nrrd_raw.specs.Undecided.{BlamesBefore};
ghost use Rattle.nrrd_raw.specs.Taken.{FillsUp, TakesByte};

use crate::faults::GridFault;
use iso_base::Shelf;

/// Takes bytes until `buf` is full or the file ends, and says how many came.
pub(crate) fn fill<S: Shelf>(shelf: &mut S, buf: &mut [u8]) -> Result<usize, GridFault>
    ensures shelf { IsSameShelf S.faults S.files S.sound shelf.old shelf.new }
    ensures blames { BlamesFairly S.faults shelf.old shelf.new result }
    ensures sound { S.sound shelf.old → IsOk result }
    ensures causes { IfErr result (λ fault. IsSome (blame_of fault)) }
    ensures filled { IfOk result (FillsUp (S.rest shelf.old) (S.rest shelf.new) buf.new) }
    ensures taken { TakesAtMost (length buf.new) (S.rest shelf.old) (S.rest shelf.new) }
    ensures undecided { BlamesBefore (length buf.old) (S.rest shelf.old) (S.rest shelf.new) result }
{
    let mut filled = 0;
    while filled < buf.len() {
        match shelf.take(&mut buf[filled..]) {
            Ok(0) => return Ok(filled),
            Ok(count) => filled += count,
            Err(failed) => return Err(GridFault::Shelf(failed.count)),
        }
    }
    Ok(filled)
}

/// Takes one byte, where the file has one more.
pub(crate) fn take_byte<S: Shelf>(shelf: &mut S) -> Result<Option<u8>, GridFault>
    ensures shelf { IsSameShelf S.faults S.files S.sound shelf.old shelf.new }
    ensures blames { BlamesFairly S.faults shelf.old shelf.new result }
    ensures sound { S.sound shelf.old → IsOk result }
    ensures causes { IfErr result (λ fault. IsSome (blame_of fault)) }
    ensures byte { IfOk result (TakesByte (S.rest shelf.old) (S.rest shelf.new)) }
    ensures kept { IfErr result (λ fault. Keeps (S.rest shelf.old) (S.rest shelf.new)) }
{
    let mut byte = [0u8; 1];
    match shelf.take(&mut byte) {
        Ok(0) => Ok(None),
        Ok(_) => Ok(Some(byte[0])),
        Err(failed) => Err(GridFault::Shelf(failed.count)),
    }
}
