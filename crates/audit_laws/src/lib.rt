//! The law of audits: on the mesh of a grid by an accepted table, with all its cells, nothing is found. The call does
//! nothing when it runs; its contract carries the law.
#![tactic(auto)]

ghost use Rattle.std.specs.Prelude.{◌≡◌};
ghost use Rattle.iso_model.specs.Values.{IsRegularGrid, volume};
ghost use Rattle.iso_model.specs.Placed.{placed_mesh};
ghost use Rattle.audit_laws.specs.Clean.{IsClean};

use grid_split::{Complex, Split};
use nrrd_raw::Grid;
use table_check::Checked;

/// The law of audits: in the mesh of a grid by an accepted table, at any isovalue and with no blank value, no simplex has
/// a repeated number, each face is in two simplices, oppositely, or in one, and in three dimensions the walk at each
/// vertex meets each of its triangles once, and closes with no fewer than three. So the finding of an audit is that all
/// is right, with the number of faces that one simplex alone has.
///
/// The complex is that of the grid.
pub fn audit_law<C: Split<D>, const D: usize>(
    table: &Checked<C, D>,
    complex: &Complex<C, D>,
    grid: &Grid,
    iso: i64,
)
    requires regular { IsRegularGrid grid.now }
    requires sizes { complex.now ≡ grid.now.sizes }
    ensures { let v = volume C.KIND grid.now iso None in IsClean D (placed_mesh v table.now) }
{
    let _ = table.table();
    let _ = complex.cells();
}
