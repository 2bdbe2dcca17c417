//! Which edges a split has.

ghost use Rattle.std.specs.Prelude.{◌≡◌, ◌+◌, ◌≤◌};
ghost use Rattle.layer_scan.specs.Directions.{axes_of, goes_along, one};

use grid_rows::EdgeRow;
use iso_model::Kind;

// Which of the two directions that take turns in a row are those of edges of the split.
#[derive(Clone, Copy)]
pub(crate) struct Directions {
    pub(crate) first: bool,
    pub(crate) second: bool,
}

impl Directions {
    // Those of a row of edges that join samples, in a slice or between two. The second goes along axis 0 besides.
    pub(crate) fn new(kind: Kind, row: &EdgeRow, upright: bool) -> Directions
        ensures first { result.first ≡ goes_along kind (axes_of row.now.along upright) }
        ensures second { result.second ≡ goes_along kind (axes_of row.now.along upright + 1) }
    {
        let axes = count(row.along[0]) + count(row.along[1]) + count(upright);
        Directions {
            first: goes_along(kind, axes),
            second: goes_along(kind, axes + 1),
        }
    }
}

// Whether an edge of the split that joins samples goes along so many axes: of cubes, and of pyramids at their bases,
// along one, and of simplices along one or more.
fn goes_along(kind: Kind, axes: u32) -> bool
    ensures { result ≡ goes_along kind axes }
{
    match kind {
        Kind::Simplex => axes > 0,
        Kind::Cube | Kind::Pyramid => axes == 1,
    }
}

// One for an axis along which an edge goes.
fn count(along: bool) -> u32
    ensures one { result ≡ one along }
    ensures few { result ≤ 1 }
{
    if along { 1 } else { 0 }
}
