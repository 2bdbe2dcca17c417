ghost use Rattle.std.specs.Prelude.{◌≡◌, ℕ, ◌^◌, ◌<◌, ◌≤◌, true, None, length, IfOk, All, unsigned_abs, slice_index};
ghost use Rattle.iso_model.specs.Values.{IsRegularGrid, volume};
ghost use Rattle.mesh_placing.specs.Placing.{EachKeepsEdges};
ghost use Rattle.iso_model.specs.Faces.{IsMesh};
ghost use Rattle.iso_model.specs.Placed.{placed_mesh};

use crate::simplices::all_simplices;
use crate::vertices::all_vertices;
use edge_vertex::bipolar;
use grid_split::{Complex, Split};
use iso_base::Memory;
use mesh_laws::Mesh;
use nrrd_raw::Grid;
use std::alloc::Global;
use table_file::Table;

/// The mesh of a grid by a table at an isovalue: a vertex on each edge of a cell whose ends differ in sign, in
/// ascending order of midpoints, last coordinate first; and, cell after cell, the tuples of the entry of the cell's
/// label, each edge replaced by its vertex, the last two exchanged where the cell is odd.
///
/// The table is one of these cells, and each entry has the bipolar edges of its label and no others, as in every table
/// that the check accepts. The grid has D axes, and the isovalue lies from -2^40 to 2^40.
pub fn place<C: Split<D>, const D: usize>(
    alloc: Global,
    table: &Table<D>,
    grid: &Grid,
    iso: i64,
) -> Result<Mesh<D>, Memory>
    requires kind { table.now.kind ≡ C.KIND }
    requires edges { EachKeepsEdges C.KIND D table.now }
    requires regular { IsRegularGrid grid.now }
    requires axes { length grid.now.sizes ≡ D }
    requires iso { unsigned_abs iso ≤ 2 ^ 40 }
    ensures mesh { IfOk result (λ mesh. mesh ≡ placed_mesh (volume C.KIND grid.now iso None) table.now) }
    ensures shape { IfOk result (IsMesh D) }
    ensures vertices { IfOk result (λ mesh. All (All (λ number. number < length mesh.vertices)) mesh.simplices) }
{
    // What a table always holds is known from here on.
    let _ = table.kind();
    let complex = complex_of::<C, D>(grid);
    let edges = bipolar(alloc, &complex, grid, iso)?;
    let vertices = all_vertices(alloc, grid, &edges, iso)?;
    let simplices = all_simplices::<C, D>(alloc, table, grid, &edges, iso)?;
    Ok(Mesh {
        vertices,
        simplices,
    })
}

// The cells of a grid.
fn complex_of<C: Split<D>, const D: usize>(grid: &Grid) -> Complex<C, D>
    requires regular { IsRegularGrid grid.now }
    requires axes { length grid.now.sizes ≡ D }
    ensures { result ≡ grid.now.sizes }
{
    Complex::new(sizes_of(grid))
}

// The sizes of a grid of D axes.
fn sizes_of<const D: usize>(grid: &Grid) -> [u64; D]
    requires { length grid.now.sizes ≡ D }
    ensures { result ≡ grid.now.sizes }
{
    let stated = &grid.sizes[..D];
    let mut sizes = [1; D];
    for axis in 0..D {
        sizes[axis] = stated[axis];
    }
    sizes
}
