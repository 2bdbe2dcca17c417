//! Half-spaces in lowest terms.

ghost use Rattle.std.specs.Prelude.{◌≡◌, ◌^◌, ◌<◌, ◌≤◌, ◌*ℤ◌, ◌∷◌, pos, max, nat_abs};
ghost use Rattle.std.specs.Int.{IsGcd, ◌∣◌};
ghost use Rattle.polynomials.specs.Small.{IsSmall, AreSmall};
ghost use Rattle.halfspace.specs.Divisors.{IsGreatestDivisor, IsReduced};

use small_turn::HalfSpace;

// The greatest common divisor, by Euclid's algorithm.
fn common_divisor(a: u64, b: u64) -> u64
    ensures greatest { IsGcd a b result }
    ensures size { result ≤ max a b }
{
    let mut greater = a;
    let mut less = b;
    while less != 0 {
        let rest = greater % less;
        greater = less;
        less = rest;
    }
    greater
}

// The greatest common divisor of the bound and the coefficients.
fn divisor_of<const D: usize>(bound: i64, normal: &[i64; D]) -> u64
    requires constant { IsSmall (2 ^ 62) bound }
    requires coefficients { AreSmall (2 ^ 62) normal.now }
    ensures greatest { IsGreatestDivisor (bound ∷ normal.now) result }
    ensures size { result ≤ 2 ^ 62 }
{
    let mut divisor = bound.unsigned_abs();
    for coefficient in normal {
        divisor = common_divisor(divisor, coefficient.unsigned_abs());
    }
    divisor
}

// The quotient of a number by a divisor of it.
fn quotient(number: i64, divisor: u64) -> i64
    requires not_zero { 0 < divisor }
    requires small { divisor ≤ 2 ^ 62 }
    requires divides { divisor ∣ nat_abs number }
    ensures { number ≡ pos divisor *ℤ result }
{
    number / (divisor as i64)
}

/// The half-space with all coefficients and the bound divided by their greatest common divisor. A half-space whose
/// numbers are all zero stays. Each number is at most 2^62 in size.
pub fn reduce<const D: usize>(half: HalfSpace<D>) -> HalfSpace<D>
    requires coefficients { AreSmall (2 ^ 62) half.normal }
    requires constant { IsSmall (2 ^ 62) half.bound }
    ensures { IsReduced half.entry.normal half.entry.bound result.normal result.bound }
{
    let divisor = divisor_of(half.bound, &half.normal);
    if divisor == 0 {
        return half;
    }
    let mut normal = half.normal;
    for i in 0..D {
        normal[i] = quotient(half.normal[i], divisor);
    }
    HalfSpace {
        normal,
        bound: quotient(half.bound, divisor),
    }
}
