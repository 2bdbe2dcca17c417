//! Ends, midpoints, corners and facets of the canonical cell, as lists by their numbers.

ghost use Rattle.std.specs.Prelude.{◌≡◌, ℕ, ◌<◌, ◌≤◌, [], map, pos, slice_index, slice_index_or};
ghost use Rattle.iso_model.specs.Cells.{corner_point, edge_ends, edge_midpoint, edge_in_facet};
ghost use Rattle.lists.specs.Bits.{is_set};

use cell_lattice::Cell;
use small_turn::wide;

/// The two ends of each edge.
pub(crate) fn ends_of<C: Cell<D>, const D: usize>() -> [(u8, u8); 32]
    requires few { C.EDGES ≤ 32 }
    ensures { (e : ℕ) → e < C.EDGES → slice_index_or result e (0, 0) ≡ edge_ends C.KIND D e }
{
    let mut ends = [(0, 0); 32];
    for edge in 0..C::EDGES {
        ends[edge] = C::edge_ends(edge as u8);
    }
    ends
}

/// The midpoint of each edge, in quarter-units.
pub(crate) fn midpoints_of<C: Cell<D>, const D: usize>() -> [[i32; D]; 32]
    requires few { C.EDGES ≤ 32 }
    requires dimension { D ≤ 4 }
    ensures { (e : ℕ) → e < C.EDGES → slice_index_or result e [] ≡ map pos (edge_midpoint C.KIND D e) }
{
    let mut midpoints = [[0; D]; 32];
    for edge in 0..C::EDGES {
        midpoints[edge] = C::edge_mid(edge as u8);
    }
    midpoints
}

/// Each corner, in half-units.
pub(crate) fn corners_of<C: Cell<D>, const D: usize>() -> [[i64; D]; 16]
    requires few { C.CORNERS ≤ 16 }
    requires dimension { D ≤ 4 }
    ensures { (k : ℕ) → k < C.CORNERS → slice_index_or result k [] ≡ map pos (corner_point C.KIND D k) }
{
    let mut corners = [[0; D]; 16];
    for corner in 0..C::CORNERS {
        corners[corner] = wide(&C::corner_at(corner as u8));
    }
    corners
}

/// The set of the edges of each facet.
pub(crate) fn facets_of<C: Cell<D>, const D: usize>() -> [u32; 8]
    requires few { C.FACETS ≤ 8 }
    ensures { (f e : ℕ) → f < C.FACETS → e < C.EDGES → is_set (slice_index result f) e ≡ edge_in_facet C.KIND D f e }
{
    let mut facets = [0; 8];
    for facet in 0..C::FACETS {
        facets[facet] = C::facet_edges(facet as u8);
    }
    facets
}
