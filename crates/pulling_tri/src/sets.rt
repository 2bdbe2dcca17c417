//! Sets of points as numbers of 64 bits.

ghost use Rattle.std.specs.Prelude.{◌≡◌, ◌<◌, ◌==◌, ◌↔◌, IsTrue, length};
ghost use Rattle.std.specs.Int.{bit_at};
ghost use Rattle.iso_model.specs.Hulls.{first_vertex};
ghost use Rattle.pulling_tri.specs.PointSets.{point_set};

// The first vertex of a set: its point of least number.
pub(crate) fn first_point(set: u64) -> u8
    requires { 0 < set }
    ensures below { result < 64 }
    ensures least { result ≡ first_vertex (point_set set) }
{
    set.trailing_zeros() as u8
}

// The set has a single point.
pub(crate) fn is_point(set: u64) -> bool
    requires { 0 < set }
    ensures { IsTrue result ↔ (length (point_set set) ≡ 1) }
{
    set == 1 << set.trailing_zeros()
}

// The point is no member of the set.
pub(crate) fn misses(set: u64, point: u8) -> bool
    requires { point < 64 }
    ensures { result ≡ (bit_at set point == 0) }
{
    (set >> point) & 1 == 0
}
