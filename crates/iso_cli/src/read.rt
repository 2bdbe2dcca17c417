//! Files of a shelf, read up to a limit.

ghost use Rattle.std.specs.Prelude.{◌≡◌, ◌≤◌, length, IfOk, IfErr};
ghost use Rattle.std.specs.Io.KnownBytes.{Consumes};
ghost use Rattle.iso_base.specs.Shelves.{IsSameShelf, TakesAtMost};
ghost use Rattle.iso_cli.specs.Shelves.{BlamesShelf, BlamesBefore, AreFrontOf};
ghost use Rattle.iso_cli.specs.Statuses.{IsOfReading, IsShelfFault};

use crate::status::Status;
use iso_base::Shelf;
use std::alloc::Global;

/// How many bytes are asked of a shelf at once.
const PIECE: usize = 65536;

/// Reads what is left of the file that was begun, up to `most` bytes.
pub fn read_front<S: Shelf>(alloc: Global, shelf: &mut S, most: usize) -> Result<Vec<u8>, Status>
    ensures shelf { IsSameShelf S.faults S.files S.sound shelf.old shelf.new }
    ensures fault { IfErr result (λ status. BlamesShelf status (S.faults shelf.old) (S.faults shelf.new)) }
    ensures sound { S.sound shelf.old → IfErr result (λ status. ¬ IsShelfFault status) }
    ensures refused { IfErr result IsOfReading }
    ensures taken { TakesAtMost most (S.rest shelf.old) (S.rest shelf.new) }
    ensures undecided { IfErr result (BlamesBefore most (S.rest shelf.old) (S.rest shelf.new)) }
    ensures came { IfOk result (λ bytes. Consumes (S.rest shelf.old) (S.rest shelf.new) bytes.items) }
    ensures front { IfOk result (λ bytes. AreFrontOf most (S.rest shelf.old) bytes.items) }
    ensures few { IfOk result (λ bytes. length bytes.items ≤ most) }
{
    let mut piece = [0; PIECE];
    let mut bytes = Vec::new(alloc);
    while bytes.len() < most {
        let room = PIECE.min(most - bytes.len());
        let count = shelf.take(&mut piece[..room])?;
        if count == 0 {
            break;
        }
        bytes.extend_from_slice(&piece[..count])?;
    }
    Ok(bytes)
}
