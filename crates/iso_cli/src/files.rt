//! The table and the grid that the words name.

ghost use Rattle.std.specs.Prelude.{◌≡◌, ◌+◌, ◌≤◌, length, None, IfOk, IfErr};
ghost use Rattle.std.specs.Io.KnownBytes.{Consumes};
ghost use Rattle.iso_base.specs.Files.{bytes_of};
ghost use Rattle.iso_base.specs.Shelves.{IsSameShelf};
ghost use Rattle.nrrd_raw.specs.Undecided.{TakesSuch};
ghost use Rattle.iso_formats.specs.GridFile.{SpellsGrid};
ghost use Rattle.iso_formats.specs.TableFile2.{limit_of};
ghost use Rattle.iso_model.specs.Values.{IsRegularGrid};
ghost use Rattle.table_file.specs.Reading.{table_in};
ghost use Rattle.iso_cli.specs.Checked.{checked_in};
ghost use Rattle.iso_cli.specs.Refusals.{FileHas, HoldBoth, HoldsAccepted, HoldsTable, LacksMeshFile};
ghost use Rattle.iso_cli.specs.Refusals.{IsRefusedFile, IsRefusedForm, IsRefusedGrid, IsRefusedMesh, IsRefusedTable};
ghost use Rattle.iso_cli.specs.Rests.{IsOpenTable, IsTableFront, LeavesGridFile, LeavesMeshFile, LeavesTableFile};
ghost use Rattle.iso_cli.specs.Axes.{needed_by};
ghost use Rattle.iso_cli.specs.Shelves.{AreFrontOf, BlamesShelf, BlamesWhile, FailsOnlyFor};
ghost use Rattle.iso_cli.specs.Statuses.{IfDecided, IsOfFiles, IsOfForm, IsOfGrid, IsOfReading, IsOfTable, IsShelfFault};

use crate::checked::{CheckedTable, certify_any, dimension};
use crate::read::read_front;
use crate::status::{Status, TableForm};
use crate::workers::Workers;
use cell_lattice::Kind;
use iso_base::{Gate, Shelf};
use nrrd_raw::{Grid, read_header, read_samples};
use std::alloc::Global;
use std::thread::Threads;
use table_file::{AnyTable, decode};

/// The most bytes that a table file has.
const TABLE_LIMIT: usize = 1 << 30;

/// How many bytes more it may have in version 2.
const MORE_IN_VERSION_2: usize = 1 << 20;

/// The most bytes that a table file has which begins so.
fn table_limit(bytes: &[u8]) -> usize
    ensures { result ≡ limit_of bytes.now }
{
    if bytes.starts_with(b"HULLTAB2") {
        TABLE_LIMIT + MORE_IN_VERSION_2
    } else {
        TABLE_LIMIT
    }
}

/// Reads what is left of the table file that was begun, up to one byte past its limit.
fn read_to_limit<S: Shelf>(alloc: Global, shelf: &mut S) -> Result<Vec<u8>, Status>
    ensures shelf { IsSameShelf S.faults S.files S.sound shelf.old shelf.new }
    ensures fault { IfErr result (λ status. BlamesShelf status (S.faults shelf.old) (S.faults shelf.new)) }
    ensures sound { S.sound shelf.old → IfErr result (λ status. ¬ IsShelfFault status) }
    ensures refused { IfErr result IsOfReading }
    ensures taken { TakesSuch IsTableFront (S.rest shelf.old) (S.rest shelf.new) }
    ensures undecided { IfErr result (BlamesWhile IsOpenTable (S.rest shelf.old) (S.rest shelf.new)) }
    ensures came { IfOk result (λ bytes. Consumes (S.rest shelf.old) (S.rest shelf.new) bytes.items) }
    ensures front { IfOk result (λ bytes. AreFrontOf (limit_of bytes.items + 1) (S.rest shelf.old) bytes.items) }
    ensures few { IfOk result (λ bytes. IsTableFront bytes.items) }
{
    let mut bytes = read_front(alloc, shelf, TABLE_LIMIT + 1)?;
    if bytes.len() <= TABLE_LIMIT {
        return Ok(bytes);
    }
    let more = read_front(alloc, shelf, table_limit(&bytes) - TABLE_LIMIT)?;
    bytes.extend_from_slice(&more)?;
    Ok(bytes)
}

/// Reads the table of a file, whether it is accepted or not.
pub fn read_table<S: Shelf>(alloc: Global, shelf: &mut S, name: &str) -> Result<AnyTable, Status>
    ensures shelf { IsSameShelf S.faults S.files S.sound shelf.old shelf.new }
    ensures blamed { IfErr result (λ status. BlamesShelf status (S.faults shelf.old) (S.faults shelf.new)) }
    ensures missing { FailsOnlyFor (bytes_of (S.files shelf.old) name.now ≡ None) (S.sound shelf.old) result }
    ensures kinds { IfErr result IsOfForm }
    ensures refused { IfDecided result (IsRefusedFile (S.files shelf.old) name.now IsRefusedForm) }
    ensures left { IfErr result (LeavesTableFile (S.files shelf.old) name.now (S.rest shelf.new)) }
    ensures held { IfOk result (λ table. HoldsTable (S.files shelf.old) name.now (table_in table)) }
{
    shelf.begin(name)?;
    let bytes = read_to_limit(alloc, shelf)?;
    if bytes.len() > table_limit(&bytes) {
        return Err(Status::TableForm(TableForm::Long));
    }
    Ok(decode(alloc, &bytes)?)
}

/// Reads the table of a file, which the check is to accept.
pub fn read_checked<R: Threads + Sync, S: Shelf, G: Gate + Sync>(
    workers: &Workers<R, G>,
    shelf: &mut S,
    name: &str,
) -> Result<CheckedTable, Status>
    ensures shelf { IsSameShelf S.faults S.files S.sound shelf.old shelf.new }
    ensures blamed { IfErr result (λ status. BlamesShelf status (S.faults shelf.old) (S.faults shelf.new)) }
    ensures missing { FailsOnlyFor (bytes_of (S.files shelf.old) name.now ≡ None) (S.sound shelf.old) result }
    ensures kinds { IfErr result IsOfTable }
    ensures refused { IfDecided result (IsRefusedFile (S.files shelf.old) name.now IsRefusedTable) }
    ensures left { IfErr result (LeavesTableFile (S.files shelf.old) name.now (S.rest shelf.new)) }
    ensures held { IfOk result (λ table. HoldsAccepted (S.files shelf.old) name.now (checked_in table)) }
{
    let table = read_table(workers.alloc, shelf, name)?;
    certify_any(workers, table)
}

/// How many axes a grid is to have.
#[derive(Clone, Copy)]
pub enum Axes {
    /// As many as a table has dimensions.
    Just(u8),
    /// As many as cells of a kind have dimensions.
    Of(Kind),
}

impl Axes {
    // How many are needed of a grid that has so many.
    fn needed(self, dims: u8) -> u8
        ensures { result ≡ needed_by self dims }
    {
        match self {
            Axes::Just(dimension) => dimension,
            Axes::Of(Kind::Pyramid) => 3,
            Axes::Of(Kind::Cube | Kind::Simplex) => dims,
        }
    }
}

/// Reads the grid of a file, which is to have as many axes as are needed.
pub fn read_grid<S: Shelf>(
    alloc: Global,
    shelf: &mut S,
    name: &str,
    axes: Axes,
) -> Result<Grid, Status>
    ensures shelf { IsSameShelf S.faults S.files S.sound shelf.old shelf.new }
    ensures blamed { IfErr result (λ status. BlamesShelf status (S.faults shelf.old) (S.faults shelf.new)) }
    ensures missing { FailsOnlyFor (bytes_of (S.files shelf.old) name.now ≡ None) (S.sound shelf.old) result }
    ensures kinds { IfErr result IsOfGrid }
    ensures refused { IfDecided result (IsRefusedFile (S.files shelf.old) name.now (IsRefusedGrid (needed_by axes))) }
    ensures left { IfErr result (LeavesGridFile (S.files shelf.old) name.now (needed_by axes) (S.rest shelf.new)) }
    ensures held { IfOk result (λ grid. FileHas (S.files shelf.old) name.now (λ bytes. SpellsGrid bytes grid)) }
    ensures fits { IfOk result (λ grid. needed_by axes (length grid.sizes) ≡ length grid.sizes) }
    ensures regular { IfOk result IsRegularGrid }
{
    shelf.begin(name)?;
    let header = read_header(shelf)?;
    let needed = axes.needed(header.dims);
    if header.dims != needed {
        return Err(Status::Unfit {
            table: needed,
            grid: header.dims,
        });
    }
    Ok(read_samples(alloc, shelf, &header)?)
}

/// Reads the table of a file, which the check is to accept, and then the grid of another, which is to have as many
/// axes as the table has dimensions.
pub fn read_both<R: Threads + Sync, S: Shelf, G: Gate + Sync>(
    workers: &Workers<R, G>,
    shelf: &mut S,
    table: &str,
    grid: &str,
) -> Result<(CheckedTable, Grid), Status>
    ensures shelf { IsSameShelf S.faults S.files S.sound shelf.old shelf.new }
    ensures blamed { IfErr result (λ status. BlamesShelf status (S.faults shelf.old) (S.faults shelf.new)) }
    ensures missing { FailsOnlyFor (LacksMeshFile (S.files shelf.old) table.now grid.now) (S.sound shelf.old) result }
    ensures kinds { IfErr result IsOfFiles }
    ensures refused { IfDecided result (IsRefusedMesh (S.files shelf.old) table.now grid.now) }
    ensures left { IfErr result (LeavesMeshFile (S.files shelf.old) table.now grid.now (S.rest shelf.new)) }
    ensures held { IfOk result (λ both. HoldBoth (S.files shelf.old) table.now grid.now (checked_in both.0) both.1) }
    ensures regular { IfOk result (λ both. IsRegularGrid both.1) }
{
    let table = read_checked(workers, shelf, table)?;
    let axes = Axes::Just(dimension(&table));
    let grid = read_grid(workers.alloc, shelf, grid, axes)?;
    Ok((table, grid))
}
