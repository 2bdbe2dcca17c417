//! The edges between the centres of a layer and the corners on one side of it, row by row, and their numbers.

ghost use Rattle.std.specs.Prelude.{◌≡◌, ◌*◌, ◌<◌, ◌^◌};
ghost use Rattle.grid_rows.specs.RowNumbers.{bordered_rows, cube_rows, sample_rows};
ghost use Rattle.layer_scan.specs.CubePlanes.{HasRows};
ghost use Rattle.layer_scan.specs.PlanesOfCentres.{HasThreeAxes, firsts_to, seconds_to};
ghost use Rattle.layer_scan.specs.RowsOfEdges.{AreNumberedRows, HasEdgeRows, row_number};

use crate::rows::number_centre_row;
use grid_rows::{BitPlane, EdgePlane, GridRows};

// What tells the edges between centres and corners: the signs of the centres, those of the samples of the slice on one
// side, and the kept cubes.
#[derive(Clone, Copy)]
pub(crate) struct CentreSigns<'a> {
    pub(crate) centres: &'a BitPlane,
    pub(crate) corners: &'a BitPlane,
    pub(crate) kept: &'a BitPlane,
}

// Numbers the bipolar edges between centres and corners of a grid of three axes, row by row from `count` on; answers
// the number of the next.
pub(crate) fn number_centres(
    plane: &mut EdgePlane,
    rows: &GridRows,
    signs: &CentreSigns<'_>,
    count: u32,
) -> u32
    requires three { HasThreeAxes rows.now }
    requires plane { HasEdgeRows (2 * cube_rows rows.now) rows.now.words plane.old }
    requires centres { HasRows (bordered_rows rows.now) rows.now.words signs.now.centres.now }
    requires corners { HasRows (sample_rows rows.now) rows.now.words signs.now.corners.now }
    requires kept { HasRows (bordered_rows rows.now) rows.now.words signs.now.kept.now }
    requires few { row_number (firsts_to rows.now signs.now) (seconds_to rows.now signs.now) rows.now.words count
        (2 * cube_rows rows.now) < 2 ^ 32 }
    ensures rows { HasEdgeRows (2 * cube_rows rows.now) rows.now.words plane.new }
    ensures edges { AreNumberedRows (firsts_to rows.now signs.now) (seconds_to rows.now signs.now) count
        (2 * cube_rows rows.now) plane.new }
    ensures next { result ≡ row_number (firsts_to rows.now signs.now) (seconds_to rows.now signs.now) rows.now.words
        count (2 * cube_rows rows.now) }
{
    let mut count = count;
    for number in 0..2 * rows.cube_rows() {
        let cubes = rows.cube_row(number / 2).number;
        let centres = signs.centres.row(cubes);
        let corners = signs.corners.row((number + 1) / 2);
        let kept = signs.kept.row(cubes);
        count = number_centre_row(plane.row_mut(number), centres, corners, kept, count);
    }
    count
}
