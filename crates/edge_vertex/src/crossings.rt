ghost use Rattle.std.specs.Prelude.{◌≡◌, ℕ, ◌+◌, ◌*◌, ◌^◌, ◌<◌, ◌≤◌, true, length, map, ℤ, pos, ◌+ℤ◌, ◌-ℤ◌, ◌*ℤ◌, unsigned_abs};
ghost use Rattle.std.specs.Int.{int_div_euclid};
ghost use Rattle.iso_model.specs.Values.{is_positive};
ghost use Rattle.iso_model.specs.Bipolar.{differ};
ghost use Rattle.iso_model.specs.Crossing.{crossing as crossing_of};
ghost use Rattle.iso_model.specs.Points.{axes};
ghost use Rattle.edge_vertex.specs.EdgeEnds.{AreNear, coordinate_between};

use grid_split::Edge;

/// Whether a value in eighths is positive: at least 8 times the isovalue. The isovalue lies from -2^40 to 2^40.
pub fn positive(value: i64, iso: i64) -> bool
    requires { unsigned_abs iso ≤ 2 ^ 40 }
    ensures { result ≡ is_positive iso value }
{
    value >= 8 * iso
}

/// Where an edge is crossed, in millionths, by the values of its ends in eighths. One of them is positive and the
/// other is not; neither is more than 2^36 in size, the isovalue lies from -2^40 to 2^40, and the ends are at most 2
/// apart along each axis. The offset from the low end is rounded towards minus infinity.
pub fn crossing<const D: usize>(edge: &Edge<D>, low: i64, high: i64, iso: i64) -> [i64; D]
    requires near { AreNear edge.now.low edge.now.high }
    requires low { unsigned_abs low ≤ 2 ^ 36 }
    requires high { unsigned_abs high ≤ 2 ^ 36 }
    requires iso { unsigned_abs iso ≤ 2 ^ 40 }
    requires bipolar { differ (is_positive iso low) (is_positive iso high) ≡ true }
    ensures { result ≡ crossing_of (record { low = edge.now.low; high = edge.now.high }) low high iso }
{
    let part = (8 * iso).abs_diff(low);
    let way = high.abs_diff(low);
    point_between(&edge.low, &edge.high, part, way)
}

// The point that is `part` of `way` from one point to another, in millionths, where the two are in half-units.
fn point_between<const D: usize>(low: &[u32; D], high: &[u32; D], part: u64, way: u64) -> [i64; D]
    requires near { AreNear low.now high.now }
    requires some { 0 < way }
    requires between { part ≤ way }
    requires few { way ≤ 2 ^ 37 }
    ensures { result ≡ map (coordinate_between low.now high.now part way) (axes (length low.now)) }
{
    let mut place = [0; D];
    for axis in 0..D {
        place[axis] = coordinate(low[axis], high[axis], part, way);
    }
    place
}

// The coordinate of the point that is `part` of `way` from p to q, in millionths, where p and q are in half-units.
fn coordinate(p: u32, q: u32, part: u64, way: u64) -> i64
    requires near { (p ≤ q + 2) × (q ≤ p + 2) }
    requires some { 0 < way }
    requires between { part ≤ way }
    requires few { way ≤ 2 ^ 37 }
    ensures { result ≡ pos 500000 *ℤ pos p +ℤ int_div_euclid (pos 500000 *ℤ (pos q -ℤ pos p) *ℤ pos part) (pos way) }
{
    let run = i64::from(q) - i64::from(p);
    500000 * i64::from(p) + share(run, part, way)
}

// Half a million times the run times the part of the way, rounded towards minus infinity.
fn share(run: i64, part: u64, way: u64) -> i64
    requires near { unsigned_abs run ≤ 2 }
    requires some { 0 < way }
    requires between { part ≤ way }
    requires few { way ≤ 2 ^ 37 }
    ensures share { result ≡ int_div_euclid (pos 500000 *ℤ run *ℤ pos part) (pos way) }
    ensures small { unsigned_abs result ≤ 1000000 }
{
    scaled(run, part).div_euclid(way as i64)
}

// Half a million times the run times the part.
fn scaled(run: i64, part: u64) -> i64
    requires near { unsigned_abs run ≤ 2 }
    requires few { part ≤ 2 ^ 37 }
    ensures { result ≡ pos 500000 *ℤ run *ℤ pos part }
{
    500000 * run * part as i64
}
