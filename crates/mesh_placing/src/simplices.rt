ghost use Rattle.std.specs.Prelude.{◌≡◌, ℕ, ◌^◌, ◌<◌, ◌≤◌, true, None, ◌++◌, length, slice_index, OnOk, IfOk, All, unsigned_abs};
ghost use Rattle.iso_model.specs.Cells.{label_count};
ghost use Rattle.iso_model.specs.Splits.{cube_count};
ghost use Rattle.iso_model.specs.Values.{IsRegularGrid, volume};
ghost use Rattle.iso_model.specs.Tables.{entry_of};
ghost use Rattle.iso_model.specs.Bipolar.{bipolar_edges};
ghost use Rattle.iso_model.specs.Acceptance.{rule_edges};
ghost use Rattle.iso_model.specs.Placed.{placed_tuple as placed_tuple_of};
ghost use Rattle.mixed_cubes.specs.CubePlaces.{place_of};
ghost use Rattle.cube_cells.specs.SignedCubes.{AreSteps};
ghost use Rattle.mesh_placing.specs.Placing.{FitsGrid, HasListedEdges, AddsAt, AddsEntry, AreSimplicesOf, placed_by};

use crate::places::{MOST_EDGES, cell_places};
use cube_cells::{CubeSteps, SignedCube};
use edge_vertex::EdgeList;
use grid_split::Split;
use iso_base::Memory;
use mixed_cubes::{CubePlace, mixed_cubes};
use nrrd_raw::Grid;
use std::alloc::Global;
use table_file::Table;

// The simplices of all cells, cell after cell.
pub fn all_simplices<C: Split<D>, const D: usize>(
    alloc: Global,
    table: &Table<D>,
    grid: &Grid,
    edges: &EdgeList<D>,
    iso: i64,
) -> Result<Vec<[u32; D]>, Memory>
    requires fits { FitsGrid C.KIND grid.now table.now }
    requires regular { IsRegularGrid grid.now }
    requires axes { length grid.now.sizes ≡ D }
    requires iso { unsigned_abs iso ≤ 2 ^ 40 }
    requires listed { edges.now ≡ bipolar_edges (volume C.KIND grid.now iso None) }
    ensures { IfOk result (AreSimplicesOf (volume C.KIND grid.now iso None) table.now edges.now) }
{
    let cubes = mixed_cubes(alloc, grid, iso)?;
    let steps = CubeSteps::new(grid);
    let mut simplices = Vec::new(alloc);
    for place in &cubes {
        add_cube::<C, D>(&mut simplices, table, grid, edges, iso, &steps, *place)?;
    }
    Ok(simplices)
}

// Adds the simplices of the cells of a cube.
fn add_cube<C: Split<D>, const D: usize>(
    simplices: &mut Vec<[u32; D]>,
    table: &Table<D>,
    grid: &Grid,
    edges: &EdgeList<D>,
    iso: i64,
    steps: &CubeSteps<D>,
    place: CubePlace,
) -> Result<(), Memory>
    requires fits { FitsGrid C.KIND grid.now table.now }
    requires regular { IsRegularGrid grid.now }
    requires axes { length grid.now.sizes ≡ D }
    requires iso { unsigned_abs iso ≤ 2 ^ 40 }
    requires listed { edges.now ≡ bipolar_edges (volume C.KIND grid.now iso None) }
    requires steps { AreSteps grid.now.sizes steps.now }
    requires cube { place.number < cube_count grid.now.sizes }
    requires place { place ≡ place_of grid.now.sizes place.number }
    ensures { OnOk result (AddsAt C.KIND D grid.now iso table.now edges.now place.number simplices.old simplices.new) }
{
    let cube = SignedCube::read(grid, steps, place, iso);
    for rank in 0..C::PER_CUBE {
        let label = cube.label::<C>(rank);
        add_cell::<C, D>(simplices, table, edges, &cube, rank, label)?;
    }
    Ok(())
}

// Adds the simplices of the cell of this rank, which has this label.
fn add_cell<C: Split<D>, const D: usize>(
    simplices: &mut Vec<[u32; D]>,
    table: &Table<D>,
    edges: &EdgeList<D>,
    cube: &SignedCube<D>,
    rank: u32,
    label: u32,
) -> Result<(), Memory>
    requires kind { table.now.kind ≡ C.KIND }
    requires few { (i : ℕ) → i < D → slice_index cube.now.place i < 2 ^ 27 }
    requires rank { rank < C.PER_CUBE }
    requires label { label < label_count C.KIND D }
    requires sound { rule_edges C.KIND D label (entry_of table.now label) ≡ true }
    requires listed { HasListedEdges C.KIND C.PER_CUBE edges.now cube.now rank label }
    ensures { AddsEntry cube.now result C.KIND C.PER_CUBE rank label edges.now table.now simplices.old simplices.new }
{
    let _ = table.kind();
    let tuples = table.tuples(label);
    if tuples.is_empty() {
        return Ok(());
    }
    let places = cell_places::<C, D>(edges, cube, rank, label);
    add_tuples(simplices, tuples, &places, C::odd(rank))
}

/// Adds tuples of edges, each edge replaced by its place, and the last two exchanged where `odd` holds.
pub fn add_tuples<const D: usize>(
    simplices: &mut Vec<[u32; D]>,
    tuples: &[[u8; D]],
    places: &[u32; MOST_EDGES],
    odd: bool,
) -> Result<(), Memory>
    requires two { 2 ≤ D }
    requires edges { All (All (λ e. e < 32)) tuples.now }
    ensures { OnOk result (simplices.new.items ≡ simplices.old.items ++ placed_by odd places.now tuples.now) }
{
    for tuple in tuples {
        if simplices.push(placed_tuple(tuple, places, odd)).is_err() {
            return Err(Memory);
        }
    }
    Ok(())
}

// A tuple of edges, each replaced by its place, and the last two exchanged where `odd` holds.
fn placed_tuple<const D: usize>(tuple: &[u8; D], places: &[u32; MOST_EDGES], odd: bool) -> [u32; D]
    requires two { 2 ≤ D }
    requires edges { All (λ e. e < 32) tuple.now }
    ensures { result ≡ placed_tuple_of odd (λ e. slice_index places.now e) tuple.now }
{
    let mut simplex = [0; D];
    for place in 0..D {
        simplex[place] = places[tuple[place] as usize];
    }
    if odd {
        simplex.swap(D - 2, D - 1);
    }
    simplex
}
