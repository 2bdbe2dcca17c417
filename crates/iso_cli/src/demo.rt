//! The demonstration: what is said of the mesh of a grid that is made, by a table that is made.

ghost use Rattle.std.specs.Prelude.{◌≡◌, ◌≤◌, IfOk, IfErr};
ghost use Rattle.iso_model.specs.Acceptance.{IsAccepted};
ghost use Rattle.iso_model.specs.Cells.{HasDimension};
ghost use Rattle.iso_commands.specs.Commands.{size_limit};
ghost use Rattle.demo_grid.specs.MeshCounts.{counts_text};
ghost use Rattle.iso_cli.specs.Demonstrations.{IsDemonstration, IsMade, IsRefusedMade};
ghost use Rattle.iso_cli.specs.Outputs.{LeavesOutput};
ghost use Rattle.iso_cli.specs.Statuses.{IfDecided, IsDecided, IsOfDemonstration, IsOfMaking, IsOfPutting};

use crate::checked::certified;
use crate::status::Status;
use crate::workers::{PARTS, Workers};
use cell_lattice::{Cell, CubeCell, Kind, PyramidCell, SimplexCell};
use demo_grid::{MeshCounts, count_mesh, make_grid, put_counts};
use grid_split::Split;
use iso_base::{Gate, Memory, Sink};
use mesh_extract::extract;
use std::alloc::Global;
use std::thread::Threads;
use table_check::Checked;
use table_make::make_parts;

/// The isovalue of the demonstration.
const ISO: i64 = 128;

/// Puts what is said of the mesh of the grid that a seed decides, by the table of the construction, which the check is to
/// accept.
pub fn put_demonstration<R: Threads + Sync, O: Sink, G: Gate + Sync>(
    workers: &Workers<R, G>,
    kind: Kind,
    dim: u8,
    size: u64,
    seed: u32,
    out: &mut O,
) -> Status
    requires fits { HasDimension kind dim }
    requires sized { 1 ≤ size }
    requires few { size ≤ size_limit dim }
    ensures kinds { IsOfDemonstration result }
    ensures refused { IsDecided result → IsRefusedMade kind dim result }
    ensures output { LeavesOutput O.faults O.bytes (IsDemonstration kind dim size seed) result out.old out.new }
{
    match demonstrate(workers, kind, dim, size, seed) {
        Ok(counts) => put_said(&counts, out),
        Err(status) => status,
    }
}

// Puts the three lines.
fn put_said<O: Sink>(counts: &MeshCounts, out: &mut O) -> Status
    ensures kinds { IsOfPutting result }
    ensures output { LeavesOutput O.faults O.bytes (λ text. text ≡ counts_text counts.now) result out.old out.new }
{
    match put_counts(counts, out) {
        Ok(()) => Status::Done,
        Err(failed) => Status::WriteFault(failed.count),
    }
}

// The numbers of the mesh.
fn demonstrate<R: Threads + Sync, G: Gate + Sync>(
    workers: &Workers<R, G>,
    kind: Kind,
    dim: u8,
    size: u64,
    seed: u32,
) -> Result<MeshCounts, Status>
    requires fits { HasDimension kind dim }
    requires sized { 1 ≤ size }
    requires few { size ≤ size_limit dim }
    ensures kinds { IfErr result IsOfMaking }
    ensures refused { IfDecided result (IsRefusedMade kind dim) }
    ensures said { IfOk result (λ counts. IsDemonstration kind dim size seed (counts_text counts)) }
{
    match (kind, dim) {
        (Kind::Cube, 2) => mesh_counts::<R, CubeCell<2>, 2, G>(workers, size, seed),
        (Kind::Cube, 3) => mesh_counts::<R, CubeCell<3>, 3, G>(workers, size, seed),
        (Kind::Cube, 4) => mesh_counts::<R, CubeCell<4>, 4, G>(workers, size, seed),
        (Kind::Simplex, 2) => mesh_counts::<R, SimplexCell<2>, 2, G>(workers, size, seed),
        (Kind::Simplex, 3) => mesh_counts::<R, SimplexCell<3>, 3, G>(workers, size, seed),
        (Kind::Simplex, 4) => mesh_counts::<R, SimplexCell<4>, 4, G>(workers, size, seed),
        (Kind::Pyramid, 3) => mesh_counts::<R, PyramidCell, 3, G>(workers, size, seed),
        _ => unreachable!(),
    }
}

// The same, where the cell is known.
fn mesh_counts<R: Threads + Sync, C: Split<D> + Sync, const D: usize, G: Gate + Sync>(
    workers: &Workers<R, G>,
    size: u64,
    seed: u32,
) -> Result<MeshCounts, Status>
    requires sized { 1 ≤ size }
    requires few { size ≤ size_limit D }
    ensures kinds { IfErr result IsOfMaking }
    ensures refused { IfDecided result (IsRefusedMade C.KIND D) }
    ensures said { IfOk result (λ counts. IsDemonstration C.KIND D size seed (counts_text counts)) }
{
    let table = made_table::<R, C, D, G>(workers)?;
    Ok(counts_by(workers.alloc, &table, size, seed)?)
}

// The numbers of the mesh by a table that was made and accepted.
fn counts_by<C: Split<D>, const D: usize>(
    alloc: Global,
    table: &Checked<C, D>,
    size: u64,
    seed: u32,
) -> Result<MeshCounts, Memory>
    requires made { IsMade C.KIND D table.now }
    requires accepted { IsAccepted table.now }
    requires sized { 1 ≤ size }
    requires few { size ≤ size_limit D }
    ensures { IfOk result (λ counts. IsDemonstration C.KIND D size seed (counts_text counts)) }
{
    let grid = make_grid(alloc, D as u8, size, seed)?;
    let mesh = extract(alloc, table, &grid, ISO)?;
    count_mesh(alloc, &mesh)
}

// The table of the construction, if the check accepts it.
fn made_table<R: Threads + Sync, C: Cell<D> + Sync, const D: usize, G: Gate + Sync>(
    workers: &Workers<R, G>,
) -> Result<Checked<C, D>, Status>
    ensures kinds { IfErr result IsOfMaking }
    ensures refused { IfDecided result (IsRefusedMade C.KIND D) }
    ensures made { IfOk result (IsMade C.KIND D) }
    ensures accepted { IfOk result IsAccepted }
{
    let table = make_parts::<R, C, D, G>(workers.rt, workers.alloc, PARTS, workers.gate)?;
    certified(workers, table)
}
