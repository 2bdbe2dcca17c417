//! Reading a grid file from a shelf.

ghost use Rattle.std.specs.Prelude.{◌≡◌, ℕ, IfSome, ◌+◌, ◌^◌, IfOk, IfErr, OnOk, IsTrue, IsNone};
ghost use Rattle.iso_model.specs.Values.{IsRegularGrid};
ghost use Rattle.iso_formats.specs.GridFile.{IsRegularHeader, SpellsGrid};
ghost use Rattle.iso_formats.specs.GridFaults.{HasGridFault, HasHeaderFault};
ghost use Rattle.std.specs.Io.KnownBytes.{IsAtEnd};
ghost use Rattle.iso_base.specs.Shelves.{IsSameShelf, TakesAtMost};
ghost use Rattle.nrrd_raw.specs.FaultCauses.{NamesCause};
ghost use Rattle.nrrd_raw.specs.GridFaultWords.{BlamesFairly, blame_of, is_header_fault};
ghost use Rattle.nrrd_raw.specs.Headers.{HeaderIsRead};
ghost use Rattle.nrrd_raw.specs.Undecided.{TakesSuch, BlamesWhile, IsOpenFile, IsOpenHeader, EndsOpenFile, EndsOpenHeader};

use crate::faults::GridFault;
use crate::fields::headers::Header;
use crate::fields::judge::header_of;
use crate::lines::fronts::take_front;
use crate::samples::grids::Grid;
use crate::samples::reading::read_samples;
use arrayvec::ArrayVec;
use iso_base::Shelf;
use std::alloc::Global;

/// Reads the header at the front of the rest of the file that was begun. Takes its bytes one at a time, and none
/// behind its end. Takes no memory.
pub fn read_header<S: Shelf>(shelf: &mut S) -> Result<Header, GridFault>
    ensures shelf { IsSameShelf S.faults S.files S.sound shelf.old shelf.new }
    ensures blames { BlamesFairly S.faults shelf.old shelf.new result }
    ensures sound { S.sound shelf.old → IfErr result (λ fault. IsNone (blame_of fault)) }
    ensures causes { IfErr result (λ fault. IsTrue (is_header_fault fault)) }
    ensures taken { TakesAtMost 65536 (S.rest shelf.old) (S.rest shelf.new) }
    ensures no_further { TakesSuch EndsOpenHeader (S.rest shelf.old) (S.rest shelf.new) }
    ensures undecided { BlamesWhile IsOpenHeader (S.rest shelf.old) (S.rest shelf.new) result }
    ensures read { IfOk result (HeaderIsRead (S.rest shelf.old) (S.rest shelf.new)) }
    ensures cause { NamesCause HasHeaderFault (S.rest shelf.old) result }
    ensures regular { IfOk result IsRegularHeader }
{
    let mut front = ArrayVec::new();
    take_front(shelf, &mut front)?;
    header_of(&front)
}

/// Reads a whole grid file that was begun: its header, and the samples behind it.
pub fn read_grid<S: Shelf>(alloc: Global, shelf: &mut S) -> Result<Grid, GridFault>
    ensures shelf { IsSameShelf S.faults S.files S.sound shelf.old shelf.new }
    ensures blames { BlamesFairly S.faults shelf.old shelf.new result }
    ensures sound { S.sound shelf.old → IfErr result (λ fault. IsNone (blame_of fault)) }
    ensures spelled { IfSome (S.rest shelf.old) (λ bytes. IfOk result (SpellsGrid bytes)) }
    ensures cause { NamesCause HasGridFault (S.rest shelf.old) result }
    ensures whole { OnOk result (IsAtEnd (S.rest shelf.new)) }
    ensures taken { TakesAtMost (2 ^ 29 + 65537) (S.rest shelf.old) (S.rest shelf.new) }
    ensures no_further { TakesSuch EndsOpenFile (S.rest shelf.old) (S.rest shelf.new) }
    ensures undecided { BlamesWhile IsOpenFile (S.rest shelf.old) (S.rest shelf.new) result }
    ensures regular { IfOk result IsRegularGrid }
{
    let header = read_header(shelf)?;
    read_samples(alloc, shelf, &header)
}
