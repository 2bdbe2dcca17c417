//! What a row of edges has at its ends, and where its edges are crossed.

ghost use Rattle.std.specs.Prelude.{◌≡◌, ◌+◌, ◌*◌, ◌^◌, ◌<◌, ◌≤◌, length, unsigned_abs};
ghost use Rattle.layer_mesh.specs.RowVertices.{middle_in};

use crate::crossings::{crossing_along, crossing_from_centre, crossing_from_corner};
use layer_scan::square_sum;

// A row of edges that join samples: the rows of samples at their ends, the first midpoint of the row, and the isovalue.
#[derive(Clone, Copy)]
pub(crate) struct SampleEnds<'a, const D: usize> {
    pub(crate) near: &'a [i64],
    pub(crate) far: &'a [i64],
    pub(crate) row: [u32; D],
    pub(crate) iso: i64,
}

impl<const D: usize> SampleEnds<'_, D> {
    ghost use Rattle.layer_mesh.specs.RowVertices.{AreSoundSamples, DifferAlong, sample_vertex};

    // The vertex on the edge from the near sample at x to the far sample at y, whose midpoint has this coordinate along
    // axis 0.
    pub(crate) fn vertex(&self, coordinate: u32, x: usize, y: usize) -> [i64; D]
        requires sound { AreSoundSamples self.now }
        requires crossed { DifferAlong self.now x y }
        ensures { result ≡ sample_vertex self.now coordinate x y }
    {
        let middle = middle_in(&self.row, coordinate);
        crossing_along(&middle, self.near[x], self.far[y], self.iso)
    }
}

// A row of edges between the centres of a row of cubes of three axes and their corners in one row of samples: this row,
// and whether it lies in the slice above; the samples of the slices below and above the centres, and the first of those
// at the corners of the cubes in each of the two rows of a slice; the first midpoint of the row, and the isovalue.
#[derive(Clone, Copy)]
pub(crate) struct CentreEnds<'a, const D: usize> {
    pub(crate) corners: &'a [i64],
    pub(crate) above: bool,
    pub(crate) lower: &'a [i64],
    pub(crate) upper: &'a [i64],
    pub(crate) near: usize,
    pub(crate) far: usize,
    pub(crate) row: [u32; D],
    pub(crate) iso: i64,
}

impl<const D: usize> CentreEnds<'_, D> {
    ghost use Rattle.layer_mesh.specs.RowVertices.{AreSoundCentres, DifferToCentre, HoldsCube};
    ghost use Rattle.layer_mesh.specs.RowVertices.{centre_sum, centre_vertex};

    // The vertex on the edge between the centre of the cube at x and the corner at y, whose midpoint has this
    // coordinate along axis 0.
    pub(crate) fn vertex(&self, coordinate: u32, x: usize, y: usize) -> [i64; D]
        requires coordinate { coordinate ≤ 2 ^ 30 }
        requires sound { AreSoundCentres self.now }
        requires crossed { DifferToCentre self.now x y }
        ensures { result ≡ centre_vertex self.now coordinate x y }
    {
        let middle = middle_in(&self.row, coordinate);
        let corner = self.corners[y];
        let sum = self.sum(x);
        if self.above {
            crossing_from_centre(&middle, sum, corner, self.iso)
        } else {
            crossing_from_corner(&middle, corner, sum, self.iso)
        }
    }

    // The sum of the eight samples of the cube at x.
    fn sum(&self, x: usize) -> i64
        requires sound { AreSoundCentres self.now }
        requires cube { HoldsCube self.now x }
        ensures sum { result ≡ centre_sum self.now x }
        ensures small { unsigned_abs result ≤ 2 ^ 36 }
    {
        let lower = square_sum(self.lower, self.near + x, self.far + x);
        let upper = square_sum(self.upper, self.near + x, self.far + x);
        lower + upper
    }
}

// The midpoint of a row that has this coordinate along axis 0.
fn middle_in<const D: usize>(row: &[u32; D], coordinate: u32) -> [u32; D]
    requires { 1 ≤ length row.now }
    ensures { result ≡ middle_in row.now coordinate }
{
    let mut middle = *row;
    middle[0] = coordinate;
    middle
}
