//! The edges of a plane, row by row, and their numbers.

ghost use Rattle.std.specs.Prelude.{◌≡◌, ◌<◌, ◌^◌};
ghost use Rattle.grid_rows.specs.RowNumbers.{bordered_rows, edge_rows, sample_rows};
ghost use Rattle.layer_scan.specs.CubePlanes.{HasRows};
ghost use Rattle.layer_scan.specs.PlanesOfEdges.{firsts, seconds};
ghost use Rattle.layer_scan.specs.RowsOfEdges.{AreNumberedRows, HasEdgeRows, row_number};

use crate::kinds::Directions;
use crate::rows::{CubesAround, number_row};
use grid_rows::{BitPlane, EdgePlane, GridRows};
use iso_model::Kind;

// What tells the edges of a plane: the split, the signs of the samples at their near and at their far ends, the kept
// cubes around them, and whether they go from slice to slice.
#[derive(Clone, Copy)]
pub(crate) struct EdgeSigns<'a> {
    pub(crate) kind: Kind,
    pub(crate) near: &'a BitPlane,
    pub(crate) far: &'a BitPlane,
    pub(crate) kept: &'a BitPlane,
    pub(crate) upright: bool,
}

// Numbers the bipolar edges of a plane that join samples, row by row from `count` on; answers the number of the next.
pub(crate) fn number_plane(
    plane: &mut EdgePlane,
    rows: &GridRows,
    signs: &EdgeSigns<'_>,
    count: u32,
) -> u32
    requires plane { HasEdgeRows (edge_rows rows.now) rows.now.words plane.old }
    requires near { HasRows (sample_rows rows.now) rows.now.words signs.now.near.now }
    requires far { HasRows (sample_rows rows.now) rows.now.words signs.now.far.now }
    requires kept { HasRows (bordered_rows rows.now) rows.now.words signs.now.kept.now }
    requires few { row_number (firsts rows.now signs.now) (seconds rows.now signs.now) rows.now.words count
        (edge_rows rows.now) < 2 ^ 32 }
    ensures rows { HasEdgeRows (edge_rows rows.now) rows.now.words plane.new }
    ensures edges { AreNumberedRows (firsts rows.now signs.now) (seconds rows.now signs.now) count
        (edge_rows rows.now) plane.new }
    ensures next { result ≡ row_number (firsts rows.now signs.now) (seconds rows.now signs.now) rows.now.words count
        (edge_rows rows.now) }
{
    let mut count = count;
    for number in 0..rows.edge_rows() {
        let row = rows.edge_row(number);
        let cubes = CubesAround::new(signs.kept, &row);
        let directions = Directions::new(signs.kind, &row, signs.upright);
        let near = signs.near.row(row.near);
        let far = signs.far.row(row.far);
        count = number_row(plane.row_mut(number), near, far, &cubes, directions, count);
    }
    count
}
