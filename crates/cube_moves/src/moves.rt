//! Moves of a cube, and what they do to its corners and edges.

ghost use Rattle.std.specs.Prelude.{◌≡◌, ◌+◌, ◌%◌, ◌^◌, ◌<◌, slice_index};
ghost use Rattle.std.specs.Int.{bit_at};
ghost use Rattle.iso_model.specs.declared.Kind.{Kind};
ghost use Rattle.iso_model.specs.Cells.{edge_count, edge_between};
ghost use Rattle.iso_model.specs.Moves.{IsMove, Carries, move_corner, move_edge};
ghost use Rattle.cube_moves.specs.Joined.{IsJoined};
ghost use Rattle.iso_model.specs.Dimensions.{IsDimension};

use cell_lattice::cube_edge;

/// A move of the cube: `axes` is an order of the axes, and `flips` has bit i set where axis i is flipped, so it is below
/// 2^D. A corner goes to the one whose bit i is bit `axes[i]` of the corner, inverted where bit i of `flips` is set.
#[derive(Clone, Copy, Debug, PartialEq, Eq)]
pub struct Move<const D: usize> {
    pub axes: [u8; D],
    pub flips: u8,
}

// Bit `axis` of the moved corner.
fn moved_bit<const D: usize>(by: &Move<D>, corner: u8, axis: usize) -> u8
    requires axis { axis < D }
    requires small { slice_index by.now.axes axis < 8 }
    requires few { D < 8 }
    ensures { result ≡ (bit_at corner (slice_index by.now.axes axis) + bit_at by.now.flips axis) % 2 }
{
    ((corner >> by.axes[axis]) ^ (by.flips >> axis)) & 1
}

/// The corner to which a move carries a corner: bit i of the answer is bit `axes[i]` of the corner, inverted where bit i
/// of `flips` is set. D is 2, 3 or 4, and the corner is below 2^D.
pub fn move_corner<const D: usize>(by: &Move<D>, corner: u8) -> u8
    requires dimension { IsDimension D }
    requires is_move { IsMove D (record { axes = by.now.axes; flips = by.now.flips }) }
    requires corner { corner < 2 ^ D }
    ensures value { result ≡ move_corner D (record { axes = by.now.axes; flips = by.now.flips }) corner }
    ensures below { result < 2 ^ D }
{
    let mut moved = 0;
    for axis in 0..D {
        moved += moved_bit(by, corner, axis) << axis;
    }
    moved
}

// The number of the cube's edge with these two corners, the smaller first.
fn edge_of<const D: usize>(first: u8, second: u8) -> u8
    requires dimension { IsDimension D }
    requires joined { IsJoined D first second }
    ensures value { result ≡ edge_between Kind.Cube D first second }
    ensures below { result < edge_count Kind.Cube D }
{
    BETWEEN[first as usize][second as usize]
}

/// The edge to which a move carries an edge of the cube: the one between the moved ends. D is 2, 3 or 4, and the edge is
/// below the cube's number of edges.
pub fn move_edge<const D: usize>(by: &Move<D>, edge: u8) -> u8
    requires dimension { IsDimension D }
    requires is_move { IsMove D (record { axes = by.now.axes; flips = by.now.flips }) }
    requires edge { edge < edge_count Kind.Cube D }
    ensures value { result ≡ move_edge D (record { axes = by.now.axes; flips = by.now.flips }) edge }
    ensures below { result < edge_count Kind.Cube D }
{
    let (first, second) = cube_edge::<D>(edge);
    let from = move_corner(by, first);
    let to = move_corner(by, second);
    edge_of::<D>(from.min(to), from.max(to))
}

/// The label to which a move carries a label: its bit `move_corner(k)` is set exactly where bit k of the label is. D is 2, 3
/// or 4, and the label is below 2^(2^D).
pub fn move_label<const D: usize>(by: &Move<D>, label: u32) -> u32
    requires dimension { IsDimension D }
    requires is_move { IsMove D (record { axes = by.now.axes; flips = by.now.flips }) }
    requires label { label < 2 ^ (2 ^ D) }
    ensures { Carries D (record { axes = by.now.axes; flips = by.now.flips }) label result }
{
    let mut moved = 0;
    for corner in 0..1u8 << D {
        if (label >> corner) & 1 == 1 {
            moved |= 1 << move_corner(by, corner);
        }
    }
    moved
}

// The edges of the hypercube, by their two corners, the smaller first. The edges of the square and of the cube have the
// same numbers.
const BETWEEN: [[u8; 16]; 16] = [
    [0, 0, 1, 0, 4, 0, 0, 0, 12, 0, 0, 0, 0, 0, 0, 0],
    [0, 0, 0, 2, 0, 5, 0, 0, 0, 13, 0, 0, 0, 0, 0, 0],
    [0, 0, 0, 3, 0, 0, 6, 0, 0, 0, 14, 0, 0, 0, 0, 0],
    [0, 0, 0, 0, 0, 0, 0, 7, 0, 0, 0, 15, 0, 0, 0, 0],
    [0, 0, 0, 0, 0, 8, 9, 0, 0, 0, 0, 0, 16, 0, 0, 0],
    [0, 0, 0, 0, 0, 0, 0, 10, 0, 0, 0, 0, 0, 17, 0, 0],
    [0, 0, 0, 0, 0, 0, 0, 11, 0, 0, 0, 0, 0, 0, 18, 0],
    [0, 0, 0, 0, 0, 0, 0, 0, 0, 0, 0, 0, 0, 0, 0, 19],
    [0, 0, 0, 0, 0, 0, 0, 0, 0, 20, 21, 0, 24, 0, 0, 0],
    [0, 0, 0, 0, 0, 0, 0, 0, 0, 0, 0, 22, 0, 25, 0, 0],
    [0, 0, 0, 0, 0, 0, 0, 0, 0, 0, 0, 23, 0, 0, 26, 0],
    [0, 0, 0, 0, 0, 0, 0, 0, 0, 0, 0, 0, 0, 0, 0, 27],
    [0, 0, 0, 0, 0, 0, 0, 0, 0, 0, 0, 0, 0, 28, 29, 0],
    [0, 0, 0, 0, 0, 0, 0, 0, 0, 0, 0, 0, 0, 0, 0, 30],
    [0, 0, 0, 0, 0, 0, 0, 0, 0, 0, 0, 0, 0, 0, 0, 31],
    [0, 0, 0, 0, 0, 0, 0, 0, 0, 0, 0, 0, 0, 0, 0, 0],
];
