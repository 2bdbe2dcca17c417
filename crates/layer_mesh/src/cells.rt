//! The cells of a cube: which of its points and of its edges are theirs.

ghost use Rattle.std.specs.Prelude.{◌≡◌, ◌<◌, ◌≤◌, ◌^◌, ℕ, All, length, slice_index};
ghost use Rattle.lists.specs.Bits.{is_set};
ghost use Rattle.iso_model.specs.Cells.{corner_count, edge_count};
ghost use Rattle.iso_model.specs.Splits.{corner_offset};
ghost use Rattle.cube_cells.specs.CubePoints.{point_number as number_of, set_of};
ghost use Rattle.edge_middles.specs.HeldMiddles.{middle_from};
ghost use Rattle.layer_scan.specs.CubeNumbers.{place_of};

use bit_rows::bit;
use cube_cells::{point_number, with_bit};
use grid_split::Split;
use layer_scan::{MOST_PLACES, edge_place};
use mesh_placing::MOST_EDGES;

/// The most cells of a cube: the simplices of a cube of four dimensions.
const MOST_CELLS: usize = 24;

/// The most corners of a cell: those of a cube of four dimensions.
const MOST_CORNERS: usize = 16;

/// A cell of a cube: the number of the cube's corner or centre at each of its corners, the place of each of its edges
/// among those of the cube, and whether it is odd.
#[derive(Clone, Copy)]
pub struct CubeCell {
    pub(crate) corners: usize,
    pub(crate) edges: usize,
    pub(crate) points: [u8; MOST_CORNERS],
    pub(crate) places: [u8; MOST_EDGES],
    pub(crate) odd: bool,
    ghost few_corners: { corners ≤ 16 },
    ghost few_edges: { edges ≤ 32 },
    ghost low_points: { All (λ k. k < 16) points },
    ghost low_places: { All (λ k. k < 81) places },
}

/// The cells of a cube, by their ranks.
#[derive(Clone, Copy)]
pub struct CubeCells {
    pub(crate) cells: [CubeCell; MOST_CELLS],
    pub(crate) count: usize,
    ghost few: { count ≤ 24 },
}

impl CubeCells {
    ghost use Rattle.layer_mesh.specs.CubeCells.{AreCubeCells};

    /// Those of each cube of a split.
    pub fn new<C: Split<D>, const D: usize>() -> CubeCells
        ensures { AreCubeCells C.KIND D result }
    {
        let mut cells = [CubeCell::NONE; MOST_CELLS];
        for rank in 0..C::PER_CUBE {
            cells[rank as usize] = CubeCell::new::<C, D>(rank);
        }
        CubeCells {
            cells,
            count: C::PER_CUBE as usize,
        }
    }
}

impl CubeCell {
    ghost use Rattle.layer_mesh.specs.CubeCells.{IsCubeCell};

    const NONE: CubeCell = CubeCell {
        corners: 0,
        edges: 0,
        points: [0; MOST_CORNERS],
        places: [0; MOST_EDGES],
        odd: false,
    };

    // The cell of this rank.
    fn new<C: Split<D>, const D: usize>(rank: u32) -> CubeCell
        requires { rank < C.PER_CUBE }
        ensures { IsCubeCell C.KIND D rank result }
    {
        CubeCell {
            corners: C::CORNERS,
            edges: C::EDGES,
            points: cell_points::<C, D>(rank),
            places: cell_places::<C, D>(rank),
            odd: C::odd(rank),
        }
    }

    // The label of the cell, by the signs of the points of its cube: bit k is set where corner k is positive.
    pub(crate) fn label(&self, signs: u32) -> u32
        ensures label { result ≡ set_of (λ k. is_set signs (slice_index self.now.points k)) self.now.corners }
        ensures few { result < 2 ^ self.now.corners }
    {
        let mut label = 0;
        for corner in 0..self.corners {
            let positive = bit(u64::from(signs), u32::from(self.points[corner])) == 1;
            label = with_bit(label, corner as u8, positive);
        }
        label
    }

    // The numbers of its edges, by those of the edges of its cube.
    pub(crate) fn numbers(&self, numbers: &[u32; MOST_PLACES]) -> [u32; MOST_EDGES]
        ensures { (e : ℕ) → e < self.now.edges →
            slice_index result e ≡ slice_index numbers.now (slice_index self.now.places e) }
    {
        let mut own = [0; MOST_EDGES];
        for edge in 0..self.edges {
            own[edge] = numbers[self.places[edge] as usize];
        }
        own
    }
}

// The number of the point of the cube at each corner of the cell of this rank.
fn cell_points<C: Split<D>, const D: usize>(rank: u32) -> [u8; MOST_CORNERS]
    requires { rank < C.PER_CUBE }
    ensures points { (k : ℕ) → k < corner_count C.KIND D →
        slice_index result k ≡ number_of D (corner_offset C.KIND D rank k) }
    ensures low { All (λ k. k < 16) result }
{
    let mut points = [0; MOST_CORNERS];
    for corner in 0..C::CORNERS {
        points[corner] = point_number(&C::offset(rank, corner as u8));
    }
    points
}

// The place of each edge of the cell of this rank among the edges of the cube.
fn cell_places<C: Split<D>, const D: usize>(rank: u32) -> [u8; MOST_EDGES]
    requires { rank < C.PER_CUBE }
    ensures places { (e : ℕ) → e < edge_count C.KIND D →
        slice_index result e ≡ place_of (middle_from C.KIND D rank e) }
    ensures low { All (λ k. k < 81) result }
{
    let mut places = [0; MOST_EDGES];
    for edge in 0..C::EDGES {
        places[edge] = edge_place::<C, D>(rank, edge as u8);
    }
    places
}
