//! The output of each command.

ghost use Rattle.std.specs.Prelude.{◌≡◌, ◌^◌, ◌≤◌, length, unsigned_abs, IfOk};
ghost use Rattle.iso_model.specs.Cells.{HasDimension};
ghost use Rattle.iso_model.specs.Values.{IsRegularGrid};
ghost use Rattle.iso_formats.specs.TableFile2.{table_bytes2};
ghost use Rattle.table_file.specs.Reading.{table_in};
ghost use Rattle.iso_cli.specs.Audits.{clean_line};
ghost use Rattle.iso_cli.specs.Checked.{checked_in};
ghost use Rattle.iso_cli.specs.Outputs.{IsGenerated, IsPlacedText, LeavesOutput, accepted_line};
ghost use Rattle.iso_cli.specs.Statuses.{IsOfPutting};

use crate::checked::CheckedTable;
use crate::line::counted;
use crate::status::Status;
use crate::workers::{PARTS, Workers};
use cell_lattice::{Cell, CubeCell, Kind, PyramidCell, SimplexCell};
use grid_split::Split;
use iso_base::{Gate, Memory, Sink, put_all};
use mesh_extract::extract;
use nrrd_raw::Grid;
use off_write::write_mesh;
use std::alloc::Global;
use std::thread::Threads;
use table_check::Checked;
use table_file::{AnyTable, encode, encode2};
use table_make::make_parts;

/// Puts the line for an accepted table.
pub fn put_accepted<O: Sink>(out: &mut O) -> Status
    ensures kinds { IsOfPutting result }
    ensures output { LeavesOutput O.faults O.bytes (λ text. text ≡ accepted_line) result out.old out.new }
{
    put_bytes(b"accepted\n", out)
}

/// Puts the line for a mesh whose simplices are glued, with the number of faces that are in one of them alone.
pub fn put_clean<O: Sink>(boundary: u64, out: &mut O) -> Status
    ensures kinds { IsOfPutting result }
    ensures output { LeavesOutput O.faults O.bytes (λ text. text ≡ clean_line boundary) result out.old out.new }
{
    let text = counted("clean: boundary ", boundary);
    put_bytes(text.as_str().as_bytes(), out)
}

/// Puts these bytes.
pub fn put_bytes<O: Sink>(bytes: &[u8], out: &mut O) -> Status
    ensures kinds { IsOfPutting result }
    ensures output { LeavesOutput O.faults O.bytes (λ text. text ≡ bytes.now) result out.old out.new }
{
    match put_all(out, bytes) {
        Ok(()) => Status::Done,
        Err(failed) => Status::WriteFault(failed.count),
    }
}

/// Puts the bytes of the table that the construction gives for a kind and a dimension.
pub fn put_table<R: Threads + Sync, O: Sink, G: Gate + Sync>(
    workers: &Workers<R, G>,
    kind: Kind,
    dim: u8,
    out: &mut O,
) -> Status
    requires fits { HasDimension kind dim }
    ensures kinds { IsOfPutting result }
    ensures output { LeavesOutput O.faults O.bytes (IsGenerated kind dim) result out.old out.new }
{
    match (kind, dim) {
        (Kind::Cube, 2) => put_made::<R, CubeCell<2>, 2, O, G>(workers, out),
        (Kind::Cube, 3) => put_made::<R, CubeCell<3>, 3, O, G>(workers, out),
        (Kind::Cube, 4) => put_made::<R, CubeCell<4>, 4, O, G>(workers, out),
        (Kind::Simplex, 2) => put_made::<R, SimplexCell<2>, 2, O, G>(workers, out),
        (Kind::Simplex, 3) => put_made::<R, SimplexCell<3>, 3, O, G>(workers, out),
        (Kind::Simplex, 4) => put_made::<R, SimplexCell<4>, 4, O, G>(workers, out),
        (Kind::Pyramid, 3) => put_made::<R, PyramidCell, 3, O, G>(workers, out),
        _ => unreachable!(),
    }
}

// The same, where the cell is known.
fn put_made<R, C, const D: usize, O, G>(workers: &Workers<R, G>, out: &mut O) -> Status
where
    R: Threads + Sync,
    C: Cell<D> + Sync,
    O: Sink,
    G: Gate + Sync,
    ensures kinds { IsOfPutting result }
    ensures output { LeavesOutput O.faults O.bytes (IsGenerated C.KIND D) result out.old out.new }
{
    match made_bytes::<R, C, D, G>(workers) {
        Ok(bytes) => put_bytes(bytes.as_slice(), out),
        Err(Memory) => Status::Memory,
    }
}

// The bytes of the table of a cell.
fn made_bytes<R: Threads + Sync, C: Cell<D> + Sync, const D: usize, G: Gate + Sync>(
    workers: &Workers<R, G>,
) -> Result<Vec<u8>, Memory>
    ensures { IfOk result (λ bytes. IsGenerated C.KIND D bytes.items) }
{
    let table = make_parts::<R, C, D, G>(workers.rt, workers.alloc, PARTS, workers.gate)?;
    encode(workers.alloc, &table)
}

/// Puts the bytes of a table in version 2.
pub fn put_version_2<O: Sink>(alloc: Global, table: &AnyTable, out: &mut O) -> Status
    ensures kinds { IsOfPutting result }
    ensures output { LeavesOutput O.faults O.bytes
        (λ text. text ≡ table_bytes2 (table_in table.now)) result out.old out.new }
{
    match version_2(alloc, table) {
        Ok(bytes) => put_bytes(bytes.as_slice(), out),
        Err(Memory) => Status::Memory,
    }
}

// The bytes of a table in version 2.
fn version_2(alloc: Global, table: &AnyTable) -> Result<Vec<u8>, Memory>
    ensures { IfOk result (λ bytes. bytes.items ≡ table_bytes2 (table_in table.now)) }
{
    match table {
        AnyTable::T2(table) => encode2(alloc, table),
        AnyTable::T3(table) => encode2(alloc, table),
        AnyTable::T4(table) => encode2(alloc, table),
    }
}

/// Puts the text of the mesh of a grid, by a table of its dimension, at an isovalue.
pub fn put_mesh<O: Sink>(
    alloc: Global,
    table: &CheckedTable,
    grid: &Grid,
    iso: i64,
    out: &mut O,
) -> Status
    requires regular { IsRegularGrid grid.now }
    requires fits { (checked_in table.now).dimension ≡ length grid.now.sizes }
    requires iso { unsigned_abs iso ≤ 2 ^ 40 }
    ensures kinds { IsOfPutting result }
    ensures output { LeavesOutput O.faults O.bytes
        (IsPlacedText (checked_in table.now) grid.now iso) result out.old out.new }
{
    match table {
        CheckedTable::Squares(table) => put_placed(alloc, table, grid, iso, out),
        CheckedTable::Triangles(table) => put_placed(alloc, table, grid, iso, out),
        CheckedTable::Cubes(table) => put_placed(alloc, table, grid, iso, out),
        CheckedTable::Tetrahedra(table) => put_placed(alloc, table, grid, iso, out),
        CheckedTable::Pyramids(table) => put_placed(alloc, table, grid, iso, out),
        CheckedTable::Hypercubes(table) => put_placed(alloc, table, grid, iso, out),
        CheckedTable::Pentachora(table) => put_placed(alloc, table, grid, iso, out),
    }
}

// The same, where the cells of the table are known.
fn put_placed<C: Split<D>, const D: usize, O: Sink>(
    alloc: Global,
    table: &Checked<C, D>,
    grid: &Grid,
    iso: i64,
    out: &mut O,
) -> Status
    requires regular { IsRegularGrid grid.now }
    requires fits { table.now.dimension ≡ length grid.now.sizes }
    requires iso { unsigned_abs iso ≤ 2 ^ 40 }
    ensures kinds { IsOfPutting result }
    ensures output { LeavesOutput O.faults O.bytes (IsPlacedText table.now grid.now iso) result out.old out.new }
{
    // What an accepted table holds is known from here on.
    let _ = table.table();
    let mesh = match extract(alloc, table, grid, iso) {
        Ok(mesh) => mesh,
        Err(Memory) => return Status::Memory,
    };
    match write_mesh(&mesh, out) {
        Ok(()) => Status::Done,
        Err(fault) => Status::WriteFault(fault.0),
    }
}
