//! How the cubes of a grid are gone through.

ghost use Rattle.std.specs.Prelude.{◌≡◌, ℕ, ◌^◌, ◌<◌, ◌≤◌, length, slice_index, All};
ghost use Rattle.iso_model.specs.Values.{IsRegularGrid, product};
ghost use Rattle.mixed_cubes.specs.CubeFaces.{corner_number as corner_number_of};
ghost use Rattle.cube_cells.specs.SignedCubes.{AreSteps};

use mixed_cubes::corner_number;
use nrrd_raw::Grid;

/// No cube has more corners: that of four dimensions has as many.
const MOST_CORNERS: usize = 16;

/// How many cubes a grid has along each axis, and how far the sample at each corner of a cube is from that at its first.
#[derive(Clone, Copy)]
pub struct CubeSteps<const D: usize> {
    pub(crate) spans: [u32; D],
    pub(crate) corners: [u32; MOST_CORNERS],
}

impl<const D: usize> CubeSteps<D> {
    /// The steps of a grid of D axes.
    pub fn new(grid: &Grid) -> CubeSteps<D>
        requires regular { IsRegularGrid grid.now }
        requires axes { length grid.now.sizes ≡ D }
        ensures { AreSteps grid.now.sizes result }
    {
        let sizes = &grid.sizes[..D];
        let mut spans = [0; D];
        for axis in 0..D {
            spans[axis] = (sizes[axis] - 1) as u32;
        }
        CubeSteps {
            spans,
            corners: corner_steps(sizes),
        }
    }
}

// How far the sample at each corner of a cube is from that at its first.
fn corner_steps(sizes: &[u64]) -> [u32; MOST_CORNERS]
    requires sized { All (λ n. 1 ≤ n) sizes.now }
    requires few { product sizes.now ≤ 2 ^ 27 }
    requires axes { length sizes.now ≤ 4 }
    ensures { (k : ℕ) → k < 16 → slice_index result k ≡ corner_number_of sizes.now k }
{
    let mut steps = [0; MOST_CORNERS];
    for corner in 0..MOST_CORNERS {
        steps[corner] = corner_number(sizes, corner as u64) as u32;
    }
    steps
}
