//! Laws that glue the meshes of cells. Their calls do nothing when they run; their contracts carry the laws.
#![tactic(auto)]

ghost use Rattle.std.specs.Prelude.{◌≡◌, ◌^◌, ◌<◌};
ghost use Rattle.iso_model.specs.Splits.{cell_count};
ghost use Rattle.iso_model.specs.Neighbours.{ShareLaw};
ghost use Rattle.iso_model.specs.Values.{IsRegularGrid, volume};
ghost use Rattle.iso_model.specs.Surface.{IsClosed, IsPlaced, IsSided, FacesAreOuter};
ghost use Rattle.glue_faces.specs.EdgeSets.{edges_in};
ghost use Rattle.iso_model.specs.Placed.{placed_mesh};

#[cfg(test)]
mod tests;

use grid_split::{Complex, Split};
use nrrd_raw::Grid;
use table_check::Checked;

/// The share law: where two different cells both have all edges of a set, the set lies in a facet of each; where it
/// lies in exactly one facet of `cell`, the other cell is the neighbour across it.
///
/// Bit e of `edges` is set where the set has edge e of `cell`. Both cells are below `cells()`, and the set has edges
/// below `EDGES` alone.
pub fn share_law<C: Split<D>, const D: usize>(
    complex: &Complex<C, D>,
    cell: u64,
    other: u64,
    edges: u32,
)
    requires cell { cell < cell_count C.KIND complex.now }
    requires other { other < cell_count C.KIND complex.now }
    requires edges { edges < 2 ^ C.EDGES }
    ensures law { ShareLaw C.KIND complex.now cell other (edges_in C.EDGES edges) }
{
    let _ = complex.cells();
}

/// The face law: the mesh of a grid by an accepted table, at any isovalue, is closed, and each of its simplices is of
/// exactly one kept cell and turned to its positive side. Where each cell is kept, its boundary lies on the outer boundary
/// of the grid.
///
/// The cells of a cube are kept where no blank value is given, or no sample of the cube equals it. The complex is that of
/// the grid.
pub fn face_law<C: Split<D>, const D: usize>(
    table: &Checked<C, D>,
    complex: &Complex<C, D>,
    grid: &Grid,
    iso: i64,
    blank: Option<i64>,
)
    requires regular { IsRegularGrid grid.now }
    requires sizes { complex.now ≡ grid.now.sizes }
    ensures closed { let v = volume C.KIND grid.now iso blank in IsClosed v (placed_mesh v table.now).simplices }
    ensures placed { let v = volume C.KIND grid.now iso blank in IsPlaced v (placed_mesh v table.now).simplices }
    ensures sided { let v = volume C.KIND grid.now iso blank in IsSided v (placed_mesh v table.now).simplices }
    ensures outer { let v = volume C.KIND grid.now iso blank in FacesAreOuter v (placed_mesh v table.now).simplices }
{
    let _ = table.table();
    let _ = complex.cells();
}
