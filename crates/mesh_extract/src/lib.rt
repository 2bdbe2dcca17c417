//! The mesh of a grid by a table that the check accepted.
#![tactic(auto)]

ghost use Rattle.std.specs.Prelude.{◌≡◌, ◌^◌, ◌<◌, ◌≤◌, None, length, IfOk, All, unsigned_abs};
ghost use Rattle.iso_model.specs.Values.{IsRegularGrid, volume};
ghost use Rattle.iso_model.specs.Faces.{IsMesh};
ghost use Rattle.iso_model.specs.Isosurfaces.{IsIsosurface};
ghost use Rattle.iso_model.specs.Links.{IsLinkedByWalks};
ghost use Rattle.iso_model.specs.Placed.{placed_mesh};
ghost use Rattle.iso_model.specs.Surface.{FacesAreOuter};

use grid_split::Split;
use iso_base::Memory;
use mesh_laws::Mesh;
use mesh_placing::place;
use nrrd_raw::Grid;
use std::alloc::Global;
use table_check::Checked;

/// The mesh of a grid by an accepted table at an isovalue: a vertex on each edge of a cell whose ends differ in sign,
/// in ascending order of midpoints, last coordinate first; and, cell after cell, the tuples of the entry of the cell's
/// label, each edge replaced by its vertex, the last two exchanged where the cell is odd.
///
/// Vertices are in millionths. The grid has D axes, and the isovalue lies from -2^40 to 2^40. The only error is want of
/// memory.
pub fn extract<C: Split<D>, const D: usize>(
    alloc: Global,
    table: &Checked<C, D>,
    grid: &Grid,
    iso: i64,
) -> Result<Mesh<D>, Memory>
    requires regular { IsRegularGrid grid.now }
    requires axes { length grid.now.sizes ≡ D }
    requires iso { unsigned_abs iso ≤ 2 ^ 40 }
    ensures surface { IfOk result (IsIsosurface (volume C.KIND grid.now iso None)) }
    ensures mesh { IfOk result (λ mesh. mesh ≡ placed_mesh (volume C.KIND grid.now iso None) table.now) }
    ensures outer { IfOk result (λ mesh. FacesAreOuter (volume C.KIND grid.now iso None) mesh.simplices) }
    ensures walks { D ≡ 3 → IfOk result (λ mesh. IsLinkedByWalks (volume C.KIND grid.now iso None) mesh.simplices) }
    ensures shape { IfOk result (IsMesh D) }
    ensures vertices { IfOk result (λ mesh. All (All (λ number. number < length mesh.vertices)) mesh.simplices) }
{
    place::<C, D>(alloc, table.table(), grid, iso)
}
