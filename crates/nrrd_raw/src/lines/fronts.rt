//! The bytes of a header, as a shelf gives them.

ghost use Rattle.std.specs.Prelude.{◌≡◌, ℕ, ◌+◌, ◌<◌, ◌≤◌, ◌==◌, [], length, IfErr, OnOk, IsTrue, IsNone};
ghost use Rattle.std.specs.Io.KnownBytes.{Consumes};
ghost use Rattle.iso_base.specs.Shelves.{IsSameShelf, TakesAtMost};
ghost use Rattle.arrayvec.specs.ArrayVec.{array_vec_len};
ghost use Rattle.iso_formats.specs.GridFaults.{HasHeaderFault};
ghost use Rattle.nrrd_raw.specs.FaultCauses.{NamesCause};
ghost use Rattle.nrrd_raw.specs.LineEnds as ends;
ghost use Rattle.nrrd_raw.specs.GridFaultWords.{BlamesFairly, is_header_fault, blame_of};
ghost use Rattle.nrrd_raw.specs.Undecided.{TakesSuch, BlamesWhile, BlamesUntouched, IsOpenHeader, EndsOpenHeader};
ghost use Rattle.nrrd_raw.specs.HeaderFronts.{HasFront, IsFront, IsNoBeginning, IsUnfit, TakesFitting, FitsFirst};

use crate::faults::GridFault;
use crate::lines::ends::without_return;
use crate::pieces::take_byte;
use arrayvec::ArrayVec;
use iso_base::Shelf;

/// The most bytes that a header has, its empty line included.
pub(crate) const HEADER_LIMIT: usize = 65536;

/// The least and the greatest first eight bytes of a file.
const LEAST: [u8; 8] = [b'N', b'R', b'R', b'D', b'0', b'0', b'0', b'1'];

const GREATEST: [u8; 8] = [b'N', b'R', b'R', b'D', b'0', b'0', b'0', b'5'];

/// Takes the bytes of a header, one at a time, up to the end of its empty line.
pub(crate) fn take_front<S: Shelf>(
    shelf: &mut S,
    front: &mut ArrayVec<u8, HEADER_LIMIT>,
) -> Result<(), GridFault>
    requires { front.old.items ≡ [] }
    ensures shelf { IsSameShelf S.faults S.files S.sound shelf.old shelf.new }
    ensures blames { BlamesFairly S.faults shelf.old shelf.new result }
    ensures sound { S.sound shelf.old → IfErr result (λ fault. IsNone (blame_of fault)) }
    ensures causes { IfErr result (λ fault. IsTrue (is_header_fault fault)) }
    ensures taken { TakesAtMost 65536 (S.rest shelf.old) (S.rest shelf.new) }
    ensures no_further { TakesSuch EndsOpenHeader (S.rest shelf.old) (S.rest shelf.new) }
    ensures undecided { BlamesWhile IsOpenHeader (S.rest shelf.old) (S.rest shelf.new) result }
    ensures came { OnOk result (Consumes (S.rest shelf.old) (S.rest shelf.new) front.new.items) }
    ensures whole { OnOk result (IsFront front.new.items) }
    ensures cause { NamesCause HasHeaderFault (S.rest shelf.old) result }
{
    take_first_line(shelf, front)?;
    let mut start = front.len();
    'bytes: while front.len() < HEADER_LIMIT {
        let Some(byte) = take_byte(shelf)? else {
            return Err(GridFault::HeaderEnd);
        };
        if byte == b'\n' {
            let ends = is_empty_line(&front[start..]);
            front.push(byte);
            if ends {
                return Ok(());
            }
            start = front.len();
        } else {
            front.push(byte);
        }
    }
    Err(GridFault::HeaderLong)
}

/// A line with these bytes before its LF is empty.
fn is_empty_line(text: &[u8]) -> bool
    ensures { result ≡ (length (ends.without_return text.now) == 0) }
{
    without_return(text).is_empty()
}

/// Takes the first line with its end.
fn take_first_line<S: Shelf>(
    shelf: &mut S,
    front: &mut ArrayVec<u8, HEADER_LIMIT>,
) -> Result<(), GridFault>
    requires { front.old.items ≡ [] }
    ensures shelf { IsSameShelf S.faults S.files S.sound shelf.old shelf.new }
    ensures blames { BlamesFairly S.faults shelf.old shelf.new result }
    ensures sound { S.sound shelf.old → IfErr result (λ fault. IsNone (blame_of fault)) }
    ensures causes { IfErr result (λ fault. IsTrue (is_header_fault fault)) }
    ensures taken { TakesAtMost 10 (S.rest shelf.old) (S.rest shelf.new) }
    ensures no_further { TakesSuch EndsOpenHeader (S.rest shelf.old) (S.rest shelf.new) }
    ensures undecided { BlamesWhile IsOpenHeader (S.rest shelf.old) (S.rest shelf.new) result }
    ensures came { OnOk result (Consumes (S.rest shelf.old) (S.rest shelf.new) front.new.items) }
    ensures short { OnOk result (length front.new.items ≤ 10) }
    ensures first { OnOk result (HasFront front.new.items (length front.new.items)) }
    ensures cause { IfErr result (IsNoBeginning (S.rest shelf.old)) }
{
    'places: for place in 0..8 {
        take_fitting(shelf, front, LEAST[place], GREATEST[place])?;
    }
    let Some(byte) = take_byte(shelf)? else {
        return Err(GridFault::Magic);
    };
    if byte == b'\n' {
        front.push(byte);
        return Ok(());
    }
    if byte != b'\r' {
        return Err(GridFault::Magic);
    }
    front.push(byte);
    take_fitting(shelf, front, b'\n', b'\n')
}

/// Takes a byte from `low` to `high`.
fn take_fitting<S: Shelf>(
    shelf: &mut S,
    front: &mut ArrayVec<u8, HEADER_LIMIT>,
    low: u8,
    high: u8,
) -> Result<(), GridFault>
    requires room { array_vec_len front.old < 65536 }
    requires some { 1 ≤ low }
    ensures shelf { IsSameShelf S.faults S.files S.sound shelf.old shelf.new }
    ensures blames { BlamesFairly S.faults shelf.old shelf.new result }
    ensures sound { S.sound shelf.old → IfErr result (λ fault. IsNone (blame_of fault)) }
    ensures causes { IfErr result (λ fault. IsTrue (is_header_fault fault)) }
    ensures taken { TakesAtMost 1 (S.rest shelf.old) (S.rest shelf.new) }
    ensures undecided { BlamesUntouched (S.rest shelf.old) (S.rest shelf.new) result }
    ensures fitting { OnOk result (TakesFitting S.rest shelf.old shelf.new low high front.old.items front.new.items) }
    ensures unfit { IfErr result (IsUnfit (S.rest shelf.old) low high) }
{
    match take_byte(shelf)? {
        Some(byte) if low <= byte && byte <= high => {
            front.push(byte);
            Ok(())
        }
        _ => Err(GridFault::Magic),
    }
}
