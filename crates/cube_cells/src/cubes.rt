//! Cubes of a grid, each read once.

ghost use Rattle.std.specs.Prelude.{◌≡◌, ℕ, ◌^◌, ◌<◌, ◌≤◌, length, slice_index, unsigned_abs};
ghost use Rattle.iso_model.specs.Splits.{cube_count};
ghost use Rattle.iso_model.specs.Values.{IsRegularGrid};
ghost use Rattle.mixed_cubes.specs.CubePlaces.{place_of};
ghost use Rattle.cube_cells.specs.SignedCubes.{AreSteps, IsSignedCube, WhereRead, label_there, edge_there};

use crate::bits::{is_set, with_bit};
use crate::points::{place_at, point_number, point_signs};
use crate::steps::CubeSteps;
use grid_split::{Edge, Split, edge_between, placed};
use mixed_cubes::CubePlace;
use nrrd_raw::Grid;

/// A cube of a grid at an isovalue: where it stands, and which of its points are positive.
#[derive(Clone, Copy, Debug, PartialEq, Eq)]
pub struct SignedCube<const D: usize> {
    // the cube's place along each axis
    pub(crate) place: [u32; D],
    // bit k is set where corner k is positive, and in three dimensions bit 8 where the centre is
    pub(crate) signs: u32,
}

impl<const D: usize> SignedCube<D> {
    /// Reads a cube. The grid has D axes, the steps are its own, the cube is one of its own, and the isovalue lies
    /// from -2^40 to 2^40.
    pub fn read(grid: &Grid, steps: &CubeSteps<D>, cube: CubePlace, iso: i64) -> SignedCube<D>
        requires regular { IsRegularGrid grid.now }
        requires axes { length grid.now.sizes ≡ D }
        requires steps { AreSteps grid.now.sizes steps.now }
        requires number { cube.number < cube_count grid.now.sizes }
        requires place { cube ≡ place_of grid.now.sizes cube.number }
        requires iso { unsigned_abs iso ≤ 2 ^ 40 }
        ensures cube { IsSignedCube grid.now iso cube.number result }
        ensures few { (i : ℕ) → i < D → slice_index result.place i < 2 ^ 27 }
    {
        let corners = &steps.corners[..1 << D];
        SignedCube {
            place: place_at(&steps.spans, cube.number),
            signs: point_signs(grid.samples.as_slice(), corners, cube.sample, iso),
        }
    }

    /// The label of the cell of this rank, which is below `PER_CUBE`: bit k is set where corner k is positive.
    pub fn label<C: Split<D>>(&self, rank: u32) -> u32
        requires rank { rank < C.PER_CUBE }
        ensures label { WhereRead self.now (λ g iso n. result ≡ label_there C.KIND C.PER_CUBE rank g iso n) }
        ensures few { result < 2 ^ C.CORNERS }
    {
        let mut label = 0;
        for corner in 0..C::CORNERS as u8 {
            let point = point_number(&C::offset(rank, corner));
            label = with_bit(label, corner, is_set(self.signs, point));
        }
        label
    }

    /// Edge `edge` of the cell of this rank. The rank is below `PER_CUBE`, the edge below `EDGES`.
    pub fn edge<C: Split<D>>(&self, rank: u32, edge: u8) -> Edge<D>
        requires rank { rank < C.PER_CUBE }
        requires edge { edge < C.EDGES }
        requires few { (i : ℕ) → i < D → slice_index self.now.place i < 2 ^ 27 }
        ensures low { WhereRead self.now (λ g _ n. result.low ≡ (edge_there C.KIND C.PER_CUBE rank edge g n).low) }
        ensures high { WhereRead self.now (λ g _ n. result.high ≡ (edge_there C.KIND C.PER_CUBE rank edge g n).high) }
    {
        let (first, second) = C::edge_ends(edge);
        let from = placed(&self.place, &C::offset(rank, first));
        let to = placed(&self.place, &C::offset(rank, second));
        edge_between(from, to)
    }
}
