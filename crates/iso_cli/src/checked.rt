//! Tables of the seven kinds that the check accepts.

ghost use Rattle.std.specs.Prelude.{◌≡◌, IfOk, IfErr};
ghost use Rattle.iso_model.specs.Acceptance.{IsAccepted};
ghost use Rattle.iso_model.specs.Tables.{IsTable};
ghost use Rattle.table_file.specs.Reading.{HasOwnDimension, table_in};
ghost use Rattle.iso_cli.specs.Checked.{IsRefusalOf, checked_in};

use crate::status::Status;
use crate::workers::{PARTS, Workers};
use cell_lattice::{Cell, CubeCell, Kind, PyramidCell, SimplexCell};
use iso_base::Gate;
use std::thread::Threads;
use table_check::{CertifyFault, Checked, certify_parts};
use table_file::{AnyTable, Table};

/// A table that the check accepts, by the cells of its kind.
#[derive(Drop)]
pub enum CheckedTable {
    Squares(Checked<CubeCell<2>, 2>),
    Triangles(Checked<SimplexCell<2>, 2>),
    Cubes(Checked<CubeCell<3>, 3>),
    Tetrahedra(Checked<SimplexCell<3>, 3>),
    Pyramids(Checked<PyramidCell, 3>),
    Hypercubes(Checked<CubeCell<4>, 4>),
    Pentachora(Checked<SimplexCell<4>, 4>),
}

/// The dimension of a table's cells.
pub fn dimension(table: &CheckedTable) -> u8
    ensures { result ≡ (checked_in table.now).dimension }
{
    match table {
        CheckedTable::Squares(table) => dimension_of(table),
        CheckedTable::Triangles(table) => dimension_of(table),
        CheckedTable::Cubes(table) => dimension_of(table),
        CheckedTable::Tetrahedra(table) => dimension_of(table),
        CheckedTable::Pyramids(table) => dimension_of(table),
        CheckedTable::Hypercubes(table) => dimension_of(table),
        CheckedTable::Pentachora(table) => dimension_of(table),
    }
}

fn dimension_of<C: Cell<D>, const D: usize>(table: &Checked<C, D>) -> u8
    ensures { result ≡ table.now.dimension }
{
    // That the dimension is D is known from here on.
    let _ = table.table();
    D as u8
}

/// The table, if the check accepts it.
pub fn certify_any<R: Threads + Sync, G: Gate + Sync>(
    workers: &Workers<R, G>,
    table: AnyTable,
) -> Result<CheckedTable, Status>
    ensures same { IfOk result (λ checked. checked_in checked ≡ table_in table) }
    ensures whole { IfOk result (λ checked. IsTable (checked_in checked)) }
    ensures accepted { IfOk result (λ checked. IsAccepted (checked_in checked)) }
    ensures refused { IfErr result (IsRefusalOf (table_in table)) }
{
    match table {
        AnyTable::T2(table) => certify_plane(workers, table),
        AnyTable::T3(table) => certify_space(workers, table),
        AnyTable::T4(table) => certify_hyperspace(workers, table),
    }
}

fn certify_plane<R: Threads + Sync, G: Gate + Sync>(
    workers: &Workers<R, G>,
    table: Table<2>,
) -> Result<CheckedTable, Status>
    ensures same { IfOk result (λ checked. checked_in checked ≡ table) }
    ensures whole { IfOk result (λ checked. IsTable (checked_in checked)) }
    ensures accepted { IfOk result (λ checked. IsAccepted (checked_in checked)) }
    ensures refused { IfErr result (IsRefusalOf table) }
{
    match table.kind() {
        Kind::Cube => Ok(CheckedTable::Squares(certified(workers, table)?)),
        Kind::Simplex => Ok(CheckedTable::Triangles(certified(workers, table)?)),
        Kind::Pyramid => unreachable!(),
    }
}

fn certify_space<R: Threads + Sync, G: Gate + Sync>(
    workers: &Workers<R, G>,
    table: Table<3>,
) -> Result<CheckedTable, Status>
    ensures same { IfOk result (λ checked. checked_in checked ≡ table) }
    ensures whole { IfOk result (λ checked. IsTable (checked_in checked)) }
    ensures accepted { IfOk result (λ checked. IsAccepted (checked_in checked)) }
    ensures refused { IfErr result (IsRefusalOf table) }
{
    match table.kind() {
        Kind::Cube => Ok(CheckedTable::Cubes(certified(workers, table)?)),
        Kind::Simplex => Ok(CheckedTable::Tetrahedra(certified(workers, table)?)),
        Kind::Pyramid => Ok(CheckedTable::Pyramids(certified(workers, table)?)),
    }
}

fn certify_hyperspace<R: Threads + Sync, G: Gate + Sync>(
    workers: &Workers<R, G>,
    table: Table<4>,
) -> Result<CheckedTable, Status>
    ensures same { IfOk result (λ checked. checked_in checked ≡ table) }
    ensures whole { IfOk result (λ checked. IsTable (checked_in checked)) }
    ensures accepted { IfOk result (λ checked. IsAccepted (checked_in checked)) }
    ensures refused { IfErr result (IsRefusalOf table) }
{
    match table.kind() {
        Kind::Cube => Ok(CheckedTable::Hypercubes(certified(workers, table)?)),
        Kind::Simplex => Ok(CheckedTable::Pentachora(certified(workers, table)?)),
        Kind::Pyramid => unreachable!(),
    }
}

/// The table, if the check accepts it, where its cells are known.
pub fn certified<R: Threads + Sync, C: Cell<D> + Sync, const D: usize, G: Gate + Sync>(
    workers: &Workers<R, G>,
    table: Table<D>,
) -> Result<Checked<C, D>, Status>
    requires { table.kind ≡ C.KIND }
    ensures same { IfOk result (λ checked. checked ≡ table.entry) }
    ensures whole { IfOk result IsTable }
    ensures accepted { IfOk result IsAccepted }
    ensures refused { IfErr result (IsRefusalOf table.entry) }
{
    match certify_parts::<R, C, D, G>(workers.rt, workers.alloc, table, PARTS, workers.gate) {
        Ok(checked) => {
            // That it is accepted is known from here on.
            let _ = checked.table();
            Ok(checked)
        }
        Err(CertifyFault::Refused { label, rule, .. }) => {
            Err(Status::TableRefused { label, rule })
        }
        Err(CertifyFault::Memory { .. }) => Err(Status::Memory),
    }
}
