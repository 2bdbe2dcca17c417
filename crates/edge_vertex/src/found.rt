ghost use Rattle.std.specs.Prelude.{◌≡◌, ℕ, ◌+◌, ◌^◌, [], ◌<◌, ◌≤◌, None, length, OnOk, IfOk, unsigned_abs, reverse, IsSortedByKey, IsPermutation, slice_index};
ghost use Rattle.std.specs.Ordering.{nat_cmp};
ghost use Rattle.std.specs.Cmp.Lexicographic.{slice_cmp};
ghost use Rattle.iso_model.specs.Points.{plus};
ghost use Rattle.iso_model.specs.Values.{IsRegularGrid, volume};
ghost use Rattle.iso_model.specs.Dimensions.{IsDimension};
ghost use Rattle.edge_vertex.specs.EdgeValue.{edge_of, edges_of, order_of, Adds, AddsRead, AreBipolarEdges, StandApart};
ghost use Rattle.edge_vertex.specs.EdgeValue.{AddsIfBipolar, AddsOfCell, IsBipolarOfCube};
ghost use Rattle.iso_model.specs.Bipolar.{bipolar_edges};

use crate::edges::{EdgeList, EdgeSet};
use crate::labels::know_axes;
use cube_cells::{CubeSteps, SignedCube, is_bipolar};
use grid_split::{Complex, Edge, Split};
use indexmap::IndexSet;
use iso_base::Memory;
use mixed_cubes::mixed_cubes;
use nrrd_raw::Grid;
use std::alloc::Global;
use std::hash::BuildHasherDefault;

/// All bipolar edges of the cells, each once, in ascending order of midpoints, last coordinate first. The grid has the
/// sizes of the complex, and the isovalue lies from -2^40 to 2^40.
pub fn bipolar<C: Split<D>, const D: usize>(
    alloc: Global,
    complex: &Complex<C, D>,
    grid: &Grid,
    iso: i64,
) -> Result<EdgeList<D>, Memory>
    requires regular { IsRegularGrid grid.now }
    requires sizes { complex.now ≡ grid.now.sizes }
    requires iso { unsigned_abs iso ≤ 2 ^ 40 }
    ensures { IfOk result (λ edges. edges ≡ bipolar_edges (volume C.KIND grid.now iso None)) }
{
    know_axes(complex);
    let mut edges = all_bipolar::<C, D>(alloc, grid, iso)?;
    sort_edges(&mut edges)?;
    Ok(EdgeList { edges })
}

// The bipolar edges of all cells, in the order in which they are found. Those of cubes that are not mixed have none.
fn all_bipolar<C: Split<D>, const D: usize>(
    alloc: Global,
    grid: &Grid,
    iso: i64,
) -> Result<EdgeSet<D>, Memory>
    requires regular { IsRegularGrid grid.now }
    requires axes { length grid.now.sizes ≡ D }
    requires iso { unsigned_abs iso ≤ 2 ^ 40 }
    ensures { IfOk result (λ edges. AreBipolarEdges (volume C.KIND grid.now iso None) C.EDGES (edges_of edges.keys)) }
{
    let cubes = mixed_cubes(alloc, grid, iso)?;
    let steps = CubeSteps::new(grid);
    let mut edges = room_for(alloc, cubes.len())?;
    for place in &cubes {
        let cube = SignedCube::read(grid, &steps, *place, iso);
        add_cube::<C, D>(&mut edges, &cube)?;
    }
    Ok(edges)
}

// No edges, and room for this many.
fn room_for<const D: usize>(alloc: Global, count: usize) -> Result<EdgeSet<D>, Memory>
    requires { IsDimension D }
    ensures { IfOk result (λ edges. edges.keys ≡ []) }
{
    match IndexSet::with_capacity_and_hasher(alloc, count, BuildHasherDefault::new()) {
        Ok(edges) => Ok(edges),
        Err(_) => Err(Memory),
    }
}

// Adds the bipolar edges of the cells of a cube.
fn add_cube<C: Split<D>, const D: usize>(
    edges: &mut EdgeSet<D>,
    cube: &SignedCube<D>,
) -> Result<(), Memory>
    requires few { (i : ℕ) → i < D → slice_index cube.now.place i < 2 ^ 27 }
    ensures { AddsRead cube.now result (IsBipolarOfCube C.KIND C.PER_CUBE C.EDGES) edges.old.keys edges.new.keys }
{
    for rank in 0..C::PER_CUBE {
        let label = cube.label::<C>(rank);
        add_cell::<C, D>(edges, cube, rank, label)?;
    }
    Ok(())
}

// Adds the bipolar edges of the cell of this rank, which has this label.
fn add_cell<C: Split<D>, const D: usize>(
    edges: &mut EdgeSet<D>,
    cube: &SignedCube<D>,
    rank: u32,
    label: u32,
) -> Result<(), Memory>
    requires few { (i : ℕ) → i < D → slice_index cube.now.place i < 2 ^ 27 }
    requires rank { rank < C.PER_CUBE }
    requires label { label < 2 ^ C.CORNERS }
    ensures { AddsOfCell cube.now result C.KIND C.PER_CUBE rank label C.EDGES edges.old.keys edges.new.keys }
{
    if label == 0 {
        return Ok(());
    }
    if label == all_corners::<C, D>() {
        return Ok(());
    }
    for edge in 0..C::EDGES as u8 {
        add_if::<C, D>(edges, cube, rank, label, edge)?;
    }
    Ok(())
}

// Adds an edge of the cell of this rank, which has this label, where the edge is bipolar.
fn add_if<C: Split<D>, const D: usize>(
    edges: &mut EdgeSet<D>,
    cube: &SignedCube<D>,
    rank: u32,
    label: u32,
    edge: u8,
) -> Result<(), Memory>
    requires few { (i : ℕ) → i < D → slice_index cube.now.place i < 2 ^ 27 }
    requires rank { rank < C.PER_CUBE }
    requires edge { edge < C.EDGES }
    ensures { AddsIfBipolar cube.now result C.KIND C.PER_CUBE rank label edge edges.old.keys edges.new.keys }
{
    if is_bipolar::<C, D>(label, edge) {
        return add(edges, cube.edge::<C>(rank, edge));
    }
    Ok(())
}

// The label in which all corners are positive.
fn all_corners<C: Split<D>, const D: usize>() -> u32
    ensures { result + 1 ≡ 2 ^ C.CORNERS }
{
    (1 << C::CORNERS) - 1
}

// Adds an edge, unless it is there.
fn add<const D: usize>(edges: &mut EdgeSet<D>, edge: Edge<D>) -> Result<(), Memory>
    requires { IsDimension D }
    ensures { OnOk result (Adds (λ e. edge_of edge.entry ≡ e) (edges_of edges.old.keys) (edges_of edges.new.keys)) }
{
    match edges.insert(edge) {
        Ok(_) => Ok(()),
        Err(_) => Err(Memory),
    }
}

// Puts edges in ascending order of their midpoints, last coordinate first.
fn sort_edges<const D: usize>(edges: &mut EdgeSet<D>) -> Result<(), Memory>
    requires { IsDimension D }
    ensures sorted { OnOk result (IsSortedByKey order_of (slice_cmp nat_cmp) edges.new.keys) }
    ensures apart { OnOk result (StandApart edges.new.keys) }
    ensures reordered { OnOk result (IsPermutation edges.old.keys edges.new.keys) }
{
    let sorted = edges.sort_unstable_by_key(
        |edge: &Edge<D>| -> [u64; D]
            ensures { result ≡ order_of edge.now }
        { order_key(edge) },
    );
    match sorted {
        Ok(_) => Ok(()),
        Err(_) => Err(Memory),
    }
}

// The sum of the two ends, last coordinate first.
fn order_key<const D: usize>(edge: &Edge<D>) -> [u64; D]
    ensures { result ≡ order_of edge.now }
{
    reversed_sum(&edge.low, &edge.high)
}

// The sum of two points, last coordinate first.
fn reversed_sum<const D: usize>(p: &[u32; D], q: &[u32; D]) -> [u64; D]
    ensures { result ≡ reverse (plus p.now q.now) }
{
    let mut sum = [0; D];
    for axis in 0..D {
        sum[axis] = u64::from(p[D - 1 - axis]) + u64::from(q[D - 1 - axis]);
    }
    sum
}
