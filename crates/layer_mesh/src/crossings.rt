//! Where edges are crossed, by their midpoints and by what their ends have.

ghost use Rattle.std.specs.Prelude.{◌≡◌, ℕ, ◌+◌, ◌*◌, ◌/◌, ◌%◌, ◌^◌, ◌<◌, ◌≤◌, ◌==◌, if◌then◌else◌, true, All, pos};
ghost use Rattle.std.specs.Prelude.{◌*ℤ◌, int_le, map, unsigned_abs};
ghost use Rattle.iso_model.specs.Bipolar.{differ};
ghost use Rattle.iso_model.specs.Crossing.{crossing as crossing_of};
ghost use Rattle.iso_model.specs.Values.{is_positive};
ghost use Rattle.edge_middles.specs.MiddleVertices.{centre_end, corner_end, million_share, point_along};

use edge_vertex::crossing;
use grid_split::Edge;

// Where an edge that joins samples is crossed, in millionths, by the samples at its low and at its high end. One of
// them is at least the isovalue, and the other is below it.
pub(crate) fn crossing_along<const D: usize>(
    middle: &[u32; D],
    low: i64,
    high: i64,
    iso: i64,
) -> [i64; D]
    requires low { unsigned_abs low ≤ 2 ^ 32 }
    requires high { unsigned_abs high ≤ 2 ^ 32 }
    requires bipolar { differ (int_le iso low) (int_le iso high) ≡ true }
    ensures { result ≡ point_along middle.now (million_share low high iso) }
{
    point_along(middle, million_share(low, high, iso))
}

// The part of the way from one sample to another at which the isovalue is met, in millionths, rounded down.
fn million_share(low: i64, high: i64, iso: i64) -> u64
    requires low { unsigned_abs low ≤ 2 ^ 32 }
    requires high { unsigned_abs high ≤ 2 ^ 32 }
    requires bipolar { differ (int_le iso low) (int_le iso high) ≡ true }
    ensures share { result ≡ million_share low high iso }
    ensures small { result ≤ 1000000 }
{
    1000000 * iso.abs_diff(low) / high.abs_diff(low)
}

// The point that is this share of the way along an edge between samples, in millionths.
fn point_along<const D: usize>(middle: &[u32; D], share: u64) -> [i64; D]
    requires { share ≤ 1000000 }
    ensures { result ≡ point_along middle.now share }
{
    let mut point = [0; D];
    for axis in 0..D {
        point[axis] = coordinate_along(middle[axis], share);
    }
    point
}

// Its coordinate along the axis along which the midpoint has this one.
fn coordinate_along(middle: u32, share: u64) -> i64
    requires { share ≤ 1000000 }
    ensures { result ≡ pos (1000000 * (middle / 4) + (if middle % 4 == 2 then share else 0)) }
{
    let beyond = if middle % 4 == 2 { share as i64 } else { 0 };
    1000000 * i64::from(middle / 4) + beyond
}

// Where an edge from a corner of a cube to its centre is crossed, in millionths, by the sample at the corner and the
// sum of the eight at all corners. The corner is in the slice below the centre.
pub(crate) fn crossing_from_corner<const D: usize>(
    middle: &[u32; D],
    corner: i64,
    sum: i64,
    iso: i64,
) -> [i64; D]
    requires few { All (λ c. c ≤ 2 ^ 30) middle.now }
    requires corner { unsigned_abs corner ≤ 2 ^ 32 }
    requires sum { unsigned_abs sum ≤ 2 ^ 36 }
    requires iso { unsigned_abs iso ≤ 2 ^ 40 }
    requires bipolar { differ (int_le iso corner) (is_positive iso sum) ≡ true }
    ensures { result ≡ crossing_of (record { low = corner_end middle.now; high = centre_end middle.now })
        (pos 8 *ℤ corner) sum iso }
{
    let edge = Edge {
        low: corner_end(middle),
        high: centre_end(middle),
    };
    crossing(&edge, eighths(corner), sum, iso)
}

// The same where the corner is in the slice above the centre, so that the edge goes from the centre to the corner.
pub(crate) fn crossing_from_centre<const D: usize>(
    middle: &[u32; D],
    sum: i64,
    corner: i64,
    iso: i64,
) -> [i64; D]
    requires few { All (λ c. c ≤ 2 ^ 30) middle.now }
    requires corner { unsigned_abs corner ≤ 2 ^ 32 }
    requires sum { unsigned_abs sum ≤ 2 ^ 36 }
    requires iso { unsigned_abs iso ≤ 2 ^ 40 }
    requires bipolar { differ (is_positive iso sum) (int_le iso corner) ≡ true }
    ensures { result ≡ crossing_of (record { low = centre_end middle.now; high = corner_end middle.now })
        sum (pos 8 *ℤ corner) iso }
{
    let edge = Edge {
        low: centre_end(middle),
        high: corner_end(middle),
    };
    crossing(&edge, sum, eighths(corner), iso)
}

// A sample in eighths.
fn eighths(sample: i64) -> i64
    requires { unsigned_abs sample ≤ 2 ^ 32 }
    ensures value { result ≡ pos 8 *ℤ sample }
    ensures small { unsigned_abs result ≤ 2 ^ 36 }
{
    8 * sample
}

// The corner by a midpoint, in half-units.
fn corner_end<const D: usize>(middle: &[u32; D]) -> [u32; D]
    requires { All (λ c. c ≤ 2 ^ 30) middle.now }
    ensures { result ≡ corner_end middle.now }
{
    let mut end = [0; D];
    for axis in 0..D {
        end[axis] = (middle[axis] + 1) / 4 * 2;
    }
    end
}

// The centre by a midpoint, in half-units.
fn centre_end<const D: usize>(middle: &[u32; D]) -> [u32; D]
    requires { All (λ c. c ≤ 2 ^ 30) middle.now }
    ensures { result ≡ centre_end middle.now }
{
    let mut end = [0; D];
    for axis in 0..D {
        end[axis] = middle[axis] / 4 * 2 + 1;
    }
    end
}
