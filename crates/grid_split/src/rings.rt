ghost use Rattle.std.specs.Prelude.{◌≡◌, ℕ, ◌+◌, ◌^◌, ◌<◌, ◌≤◌, length, slice_index};
ghost use Rattle.split_checks.specs.CellsRound.{number_of_way, AreRound, IsBelow4, IsWay};
ghost use Rattle.split_laws.specs.RoundEdges.{IsMiddle};

use crate::Edge;
use arrayvec::ArrayVec;
use cell_lattice::Kind;
use split_checks::{CENTRES, CUBES, PYRAMIDS, Place, SIMPLICES};

/// The cells that have an edge, in turn round it: each shares a facet that has the edge with the one before it, and
/// where the ring is closed, the first one with the last.
#[derive(Drop)]
pub struct Ring {
    pub cells: ArrayVec<u64, 8>,
    pub closed: bool,
}

/// The middle cube of an edge, and its way: in each axis the sum of the two ends is 4 times the one, and the other.
pub(crate) fn middle(edge: &Edge<3>) -> ([u32; 3], [u32; 3])
    requires few { (i : ℕ) → i < 3 → slice_index edge.now.low i + slice_index edge.now.high i < 2 ^ 32 }
    ensures { IsMiddle edge.now.low edge.now.high result.0 result.1 }
{
    let mut cube = [0; 3];
    let mut way = [0; 3];
    for axis in 0..3 {
        let sum = edge.low[axis] + edge.high[axis];
        cube[axis] = sum / 4;
        way[axis] = sum % 4;
    }
    (cube, way)
}

/// The cells round an edge of this way, in turn.
pub(crate) fn cells_round(kind: Kind, way: &[u32; 3]) -> &'static [Place]
    requires way { IsWay kind way.now }
    ensures round { AreRound kind way.now result.now }
    ensures few { length result.now ≤ 8 }
{
    let number = way_number(way);
    match kind {
        Kind::Cube => CUBES[number],
        Kind::Simplex => SIMPLICES[number],
        Kind::Pyramid if way[0] % 2 == 0 => PYRAMIDS[number],
        Kind::Pyramid => CENTRES[number],
    }
}

// Bit i is set where the high end is further up axis i: by 2 between samples, and at the centre of a cube by 1.
fn way_number(way: &[u32; 3]) -> usize
    requires { IsBelow4 way.now }
    ensures number { result ≡ number_of_way way.now }
    ensures few { result < 8 }
{
    (way[0] / 2 + way[1] / 2 * 2 + way[2] / 2 * 4) as usize
}
