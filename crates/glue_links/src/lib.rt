//! The laws of rings and links, in three dimensions: of the cells round an edge, and of the triangles at a vertex.
//! Their calls do nothing when they run; their contracts carry the laws.
#![tactic(auto)]

ghost use Rattle.std.specs.Prelude.{◌≡◌};
ghost use Rattle.iso_model.specs.Values.{IsRegularGrid, volume};
ghost use Rattle.iso_model.specs.Links.{IsLinked};
ghost use Rattle.iso_model.specs.Placed.{placed_mesh};
ghost use Rattle.split_laws.specs.RoundEdges.{HasRing, IsEdge};
ghost use Rattle.grid_split.specs.EdgeEnds.{as_edge};
ghost use Rattle.glue_links.specs.Whole.{WalksWhereWhole};

#[cfg(test)]
mod tests;

use grid_split::{Complex, Edge, Split};
use nrrd_raw::Grid;
use table_check::Checked;

/// The ring law: the cells that have an edge are one cycle or one arc of neighbours, each next to the one before it
/// across a facet that has the edge. There is an arc exactly where both ends of the edge lie on the outer boundary of
/// the grid, and a cycle has at least three cells.
///
/// The edge is one of a cell.
pub fn ring_law<C: Split<3>>(complex: &Complex<C, 3>, edge: &Edge<3>)
    requires edge { IsEdge C.KIND complex.now (as_edge edge.now) }
    ensures ring { HasRing C.KIND complex.now (as_edge edge.now) }
{
    let _ = complex.cells();
}

/// The link law: in the mesh of a grid by an accepted table, at any isovalue, the triangles at each vertex form one
/// cycle, or where a free facet has the vertex's edge, one path for each arc of kept cells. Where each cell is kept,
/// the walk at each vertex meets each of its triangles once, and closes, over at least three, exactly where the
/// vertex's edge is not on the outer boundary of the grid.
///
/// The cells of a cube are kept where no blank value is given, or no sample of the cube equals it. The complex is
/// that of the grid.
pub fn link_law<C: Split<3>>(
    table: &Checked<C, 3>,
    complex: &Complex<C, 3>,
    grid: &Grid,
    iso: i64,
    blank: Option<i64>,
)
    requires regular { IsRegularGrid grid.now }
    requires sizes { complex.now ≡ grid.now.sizes }
    ensures linked { let v = volume C.KIND grid.now iso blank in IsLinked v (placed_mesh v table.now).simplices }
    ensures walks { let v = volume C.KIND grid.now iso blank in WalksWhereWhole v (placed_mesh v table.now).simplices }
{
    let _ = table.table();
    let _ = complex.cells();
}
