//! How far points are from the boundary of a half-space.

ghost use Rattle.std.specs.Prelude.{◌≡◌, ◌^◌, ◌≤◌, ◌-ℤ◌, All, length};
ghost use Rattle.polynomials.specs.Small.{IsSmall, AreSmall};
ghost use Rattle.iso_model.specs.Turns.{slack, tight_set};
ghost use Rattle.lists.specs.Bits.{set_number};

use small_turn::{HalfSpace, dot, wide};

/// How far a point is from the boundary: `bound - normal . point`, which is 0 at the boundary and negative outside.
/// Coefficients are at most 2^24 in size, the bound is at most 2^40 in size, coordinates lie from -64 to 64, and D is
/// at most 4.
pub fn slack<const D: usize>(half: &HalfSpace<D>, point: &[i32; D]) -> i64
    requires few { D ≤ 4 }
    requires coefficients { AreSmall (2 ^ 24) half.now.normal }
    requires constant { IsSmall (2 ^ 40) half.now.bound }
    requires small { AreSmall 64 point.now }
    ensures { result ≡ slack (record { normal = half.now.normal; bound = half.now.bound }) point.now }
{
    half.bound - dot(&half.normal, &wide(point))
}

/// The set of the points at which a half-space has equality, as a number: bit i is set where point i has slack 0.
/// The conditions are those of `slack`, and there are at most 48 points.
pub fn tight<const D: usize>(half: &HalfSpace<D>, points: &[[i32; D]]) -> u64
    requires few { D ≤ 4 }
    requires coefficients { AreSmall (2 ^ 24) half.now.normal }
    requires constant { IsSmall (2 ^ 40) half.now.bound }
    requires count { length points.now ≤ 48 }
    requires small { All (λ point. AreSmall 64 point) points.now }
    ensures { result ≡ set_number (tight_set (record { normal = half.now.normal; bound = half.now.bound }) points.now) }
{
    let mut set = 0;
    for (i, point) in points.iter().enumerate() {
        if slack(half, point) == 0 {
            set |= 1 << i;
        }
    }
    set
}
