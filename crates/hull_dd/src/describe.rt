//! The facets by the generators of all points.

ghost use Rattle.std.specs.Prelude.{◌≡◌, ◌<◌, ◌≤◌, length, All, IfOk, IfSome, IsTrue};
ghost use Rattle.polynomials.specs.Small.{AreSmall};
ghost use Rattle.halfspace.specs.Choices.{AreFacetNumbers, AreSomeFacets};
ghost use Rattle.hull_dd.specs.Generators.{GenerateAll};
ghost use Rattle.hull_dd.specs.Steps.{IsWithinAny, AreWithinAny};

use crate::generators::Generator;
use crate::prune::is_within;
use crate::spread::spread;
use crate::start::start;
use crate::step::add_point;
use halfspace::consider;
use iso_base::Memory;
use std::alloc::Global;
use std::mem::swap;

// The generators of the half-spaces that hold all points, in place of what was there. False where they are not found.
fn describe<const D: usize>(
    alloc: Global,
    points: &[[i32; D]],
    generators: &mut Vec<Generator<D>>,
) -> Result<bool, Memory>
    requires least { 2 ≤ D }
    requires greatest { D ≤ 4 }
    requires number { length points.now ≤ 48 }
    requires small { All (λ point. AreSmall 32 point) points.now }
    requires wide { All (λ p. length p ≡ D) points.now }
    ensures { IfOk result (λ done. IsTrue done → GenerateAll D points.now generators.new.items) }
{
    let Some(mut seen) = start(points, generators)? else {
        return Ok(false);
    };
    let mut next = Vec::new(alloc);
    let mut slacks = Vec::new(alloc);
    for i in 0..points.len() {
        if (seen >> i) & 1 == 0 {
            if !add_point(points, i, generators, &mut slacks, &mut next)? {
                return Ok(false);
            }
            swap(generators, &mut next);
            seen |= 1 << i;
        }
    }
    Ok(true)
}

// Some set has all members of this one.
fn is_within_any(set: u64, sets: &[u64]) -> bool
    ensures { IsTrue result → IsWithinAny set sets.now }
{
    for other in sets {
        if is_within(set, *other) {
            return true;
        }
    }
    false
}

// The facets on which the tight sets of generators lie, each once. False where one lies on none that is found.
fn gather<const D: usize>(
    points: &[[i32; D]],
    generators: &[Generator<D>],
    facets: &mut Vec<u64>,
) -> Result<bool, Memory>
    requires least { 2 ≤ D }
    requires greatest { D ≤ 4 }
    requires number { length points.now ≤ 48 }
    requires small { All (λ point. AreSmall 32 point) points.now }
    requires wide { All (λ p. length p ≡ D) points.now }
    requires known { AreSomeFacets D points.now facets.old.items }
    ensures known { AreSomeFacets D points.now facets.new.items }
    ensures within { IfOk result (λ done. IsTrue done → AreWithinAny generators.now facets.new.items) }
{
    for generator in generators {
        let first = generator.tight.trailing_zeros() as usize;
        if first < points.len() {
            consider(points, &spread(points, first, generator.tight), facets)?;
        }
        if !is_within_any(generator.tight, facets) {
            return Ok(false);
        }
    }
    Ok(true)
}

/// The facets of the points, each once. `None` where the generators are not found, or one of them gives no facet.
pub fn described_facets<const D: usize>(
    alloc: Global,
    points: &[[i32; D]],
) -> Result<Option<Vec<u64>>, Memory>
    requires least { 2 ≤ D }
    requires greatest { D ≤ 4 }
    requires number { length points.now ≤ 48 }
    requires small { All (λ point. AreSmall 32 point) points.now }
    requires wide { All (λ p. length p ≡ D) points.now }
    ensures { IfOk result (λ found. IfSome found (λ facets. AreFacetNumbers D points.now facets.items)) }
{
    let mut generators = Vec::new(alloc);
    let mut facets = Vec::new(alloc);
    if !describe(alloc, points, &mut generators)? {
        return Ok(None);
    }
    if !gather(points, &generators, &mut facets)? {
        return Ok(None);
    }
    facets.sort_unstable();
    Ok(Some(facets))
}
