//! The table of a file, its faults, and their text.

ghost use Rattle.std.specs.Prelude.{◌≡◌, ◌↔◌, [], IfOk, IfErr};
ghost use Rattle.iso_commands.specs.Commands.{convert_command};
ghost use Rattle.table_file.specs.Reading.{table_in};
ghost use Rattle.iso_cli.specs.Outputs.{LeavesOutput};
ghost use Rattle.iso_cli.specs.Runs.{IsTrueOf, LacksFile, LeavesRest, LeavesShelf};
ghost use Rattle.table_faults.specs.Faults.{AreFaults};
ghost use Rattle.faults_cli.specs.declared.verdict.Verdict.TheVariants.{Accepted};
ghost use Rattle.faults_cli.specs.Endings.{IsOfFile, IsOfWriting, IsWriteFault, ending, status_of};
ghost use Rattle.faults_cli.specs.Listings.{IsListing, IsListingOf, listing_text};

use crate::verdict::Verdict;
use cell_lattice::{CubeCell, Kind, PyramidCell, SimplexCell};
use iso_base::{Failed, Memory, Shelf, Sink, put_all};
use iso_cli::{Status, read_table};
use std::alloc::Global;
use table_faults::{Fault, put_faults, table_faults};
use table_file::{AnyTable, Table};

/// Lists the faults of the table of a file, or says that it is accepted.
pub fn list_faults<S: Shelf, O: Sink>(
    alloc: Global,
    name: &str,
    shelf: &mut S,
    out: &mut O,
) -> Result<Verdict, Status>
    ensures kinds { IfErr result IsOfFile }
    ensures answer { IsTrueOf (S.files shelf.old) (status_of result) (convert_command name.now) }
    ensures shelf { LeavesShelf S.faults S.files S.sound
        (LacksFile (S.files shelf.old) (convert_command name.now)) (status_of result) shelf.old shelf.new }
    ensures output { LeavesOutput O.faults O.bytes
        (IsListing (S.files shelf.old) name.now result) (status_of result) out.old out.new }
    ensures left { LeavesRest (S.files shelf.old) (status_of result) (S.rest shelf.new) (convert_command name.now) }
{
    match read_table(alloc, shelf, name) {
        Ok(table) => put_faults_of(alloc, &table, out),
        Err(status) => Err(status),
    }
}

// Puts the text of all faults of a table.
fn put_faults_of<O: Sink>(alloc: Global, table: &AnyTable, out: &mut O) -> Result<Verdict, Status>
    ensures kinds { IfErr result IsOfWriting }
    ensures output { LeavesOutput O.faults O.bytes
        (IsListingOf (table_in table.now) result) (status_of result) out.old out.new }
{
    match faults_of(alloc, table) {
        Ok(faults) => put_listing(&faults, out),
        Err(Memory) => Err(Status::Memory),
    }
}

// All faults of a table, of whichever dimension.
fn faults_of(alloc: Global, table: &AnyTable) -> Result<Vec<Fault>, Memory>
    ensures { IfOk result (λ faults. AreFaults (table_in table.now) faults.items) }
{
    match table {
        AnyTable::T2(table) => plane_faults(alloc, table),
        AnyTable::T3(table) => space_faults(alloc, table),
        AnyTable::T4(table) => hyperspace_faults(alloc, table),
    }
}

fn plane_faults(alloc: Global, table: &Table<2>) -> Result<Vec<Fault>, Memory>
    ensures { IfOk result (λ faults. AreFaults table.now faults.items) }
{
    match table.kind() {
        Kind::Cube => table_faults::<CubeCell<2>, 2>(alloc, table),
        Kind::Simplex => table_faults::<SimplexCell<2>, 2>(alloc, table),
        Kind::Pyramid => unreachable!(),
    }
}

fn space_faults(alloc: Global, table: &Table<3>) -> Result<Vec<Fault>, Memory>
    ensures { IfOk result (λ faults. AreFaults table.now faults.items) }
{
    match table.kind() {
        Kind::Cube => table_faults::<CubeCell<3>, 3>(alloc, table),
        Kind::Simplex => table_faults::<SimplexCell<3>, 3>(alloc, table),
        Kind::Pyramid => table_faults::<PyramidCell, 3>(alloc, table),
    }
}

fn hyperspace_faults(alloc: Global, table: &Table<4>) -> Result<Vec<Fault>, Memory>
    ensures { IfOk result (λ faults. AreFaults table.now faults.items) }
{
    match table.kind() {
        Kind::Cube => table_faults::<CubeCell<4>, 4>(alloc, table),
        Kind::Simplex => table_faults::<SimplexCell<4>, 4>(alloc, table),
        Kind::Pyramid => unreachable!(),
    }
}

// Puts the text of these faults, which are all that a table has.
fn put_listing<O: Sink>(faults: &[Fault], out: &mut O) -> Result<Verdict, Status>
    ensures kinds { IfErr result IsWriteFault }
    ensures verdict { IfOk result (λ verdict. (verdict ≡ Accepted) ↔ (faults.now ≡ [])) }
    ensures output { LeavesOutput O.faults O.bytes
        (λ text. text ≡ listing_text faults.now) (status_of result) out.old out.new }
{
    if faults.is_empty() {
        ended(put_all(out, b"accepted\n"), Verdict::Accepted)
    } else {
        ended(put_faults(faults, out), Verdict::Faulty)
    }
}

// How a run ends once its text was put, or not.
fn ended(put: Result<(), Failed>, verdict: Verdict) -> Result<Verdict, Status>
    ensures { result ≡ ending put verdict }
{
    match put {
        Ok(()) => Ok(verdict),
        Err(failed) => Err(Status::WriteFault(failed.count)),
    }
}
