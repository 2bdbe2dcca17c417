//! Two half-spaces on opposite sides of a point give one that is tight at it.

ghost use Rattle.std.specs.Prelude.{◌≡◌, ◌^◌, ◌<◌, ◌*ℤ◌, IfSome, IsTrue, map};
ghost use Rattle.polynomials.specs.Small.{IsSmall, AreSmall};
ghost use Rattle.iso_model.specs.Turns.{minus};
ghost use Rattle.hull_dd.specs.Generators.{combined, plain, HasSmallNumbers};
ghost use Rattle.hull_dd.specs.Steps.{IsJoined};

use crate::generators::Generator;
use halfspace::reduce;
use small_turn::HalfSpace;

/// The greatest coefficient of a generator.
const COEFFICIENT: u64 = 1 << 24;
/// The greatest bound of a generator.
const BOUND: u64 = 1 << 28;

// `p` times the one row minus `q` times the other, place by place.
fn scaled_difference<const D: usize>(p: i64, xs: &[i64; D], q: i64, ys: &[i64; D]) -> [i64; D]
    requires p_small { IsSmall (2 ^ 32) p }
    requires xs_small { AreSmall (2 ^ 24) xs.now }
    requires q_small { IsSmall (2 ^ 32) q }
    requires ys_small { AreSmall (2 ^ 24) ys.now }
    ensures value { result ≡ minus (map (λ x. p *ℤ x) xs.now) (map (λ x. q *ℤ x) ys.now) }
    ensures small { AreSmall (2 ^ 62) result }
{
    let mut row = [0; D];
    for i in 0..D {
        row[i] = p * xs[i] - q * ys[i];
    }
    row
}

/// `p` times the one half-space minus `q` times the other: at each point its slack is `p` times the one's slack minus
/// `q` times the other's.
pub(crate) fn combination<const D: usize>(
    p: i64,
    one: &HalfSpace<D>,
    q: i64,
    other: &HalfSpace<D>,
) -> HalfSpace<D>
    requires p_small { IsSmall (2 ^ 32) p }
    requires one_coefficients { AreSmall (2 ^ 24) one.now.normal }
    requires one_constant { IsSmall (2 ^ 28) one.now.bound }
    requires q_small { IsSmall (2 ^ 32) q }
    requires other_coefficients { AreSmall (2 ^ 24) other.now.normal }
    requires other_constant { IsSmall (2 ^ 28) other.now.bound }
    ensures normal { result.normal ≡ (combined p (plain one.now) q (plain other.now)).normal }
    ensures bound { result.bound ≡ (combined p (plain one.now) q (plain other.now)).bound }
    ensures coefficients { AreSmall (2 ^ 62) result.normal }
    ensures constant { IsSmall (2 ^ 62) result.bound }
{
    HalfSpace {
        normal: scaled_difference(p, &one.normal, q, &other.normal),
        bound: p * one.bound - q * other.bound,
    }
}

// Each number is a coefficient of a generator.
fn are_small<const D: usize>(numbers: &[i64; D]) -> bool
    ensures { IsTrue result → AreSmall (2 ^ 24) numbers.now }
{
    for number in numbers {
        if number.unsigned_abs() > COEFFICIENT {
            return false;
        }
    }
    true
}

/// The combination of two generators that is tight at point `i`, which the one has inside and the other outside, by
/// their slacks there. `None` where a number of it, in lowest terms, is too great.
pub(crate) fn joined<const D: usize>(
    i: usize,
    inside: &Generator<D>,
    above: i64,
    outside: &Generator<D>,
    below: i64,
) -> Option<Generator<D>>
    requires number { i < 48 }
    requires inside_small { HasSmallNumbers inside.now }
    requires above_small { IsSmall (2 ^ 32) above }
    requires outside_small { HasSmallNumbers outside.now }
    requires below_small { IsSmall (2 ^ 32) below }
    ensures { IfSome result (λ g. IsJoined D i inside.now above outside.now below g) }
{
    let half = reduce(combination(above, &outside.half, below, &inside.half));
    if !are_small(&half.normal) || half.bound.unsigned_abs() > BOUND {
        return None;
    }
    Some(Generator {
        half,
        tight: (inside.tight & outside.tight) | (1 << i),
    })
}
