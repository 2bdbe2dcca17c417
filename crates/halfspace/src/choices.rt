//! The facets of a finite set of points, found by its choices of D points.

ghost use Rattle.std.specs.Prelude.{◌≡◌, ◌≢◌, ◌↔◌, ℕ, [], ◌∷◌, ◌++◌, ◌+◌, ◌^◌, ◌<◌, ◌≤◌, ◌<ℤ◌, ◌≤ℤ◌, pos, All, Any, Contains, IsTrue, IfOk, OnOk, MatchOption, length, take};
ghost use Rattle.std.specs.Bool.{MatchBool};
ghost use Rattle.std.specs.Int.{bit_at};
ghost use Rattle.polynomials.specs.Small.{IsSmall, AreSmall};
ghost use Rattle.iso_model.specs.Turns.{HasNormal, Holds, slack};
ghost use Rattle.iso_model.specs.Hulls.{members};
ghost use Rattle.halfspace.specs.Choices.{AreFacetNumbers, AreSomeFacets, IsTried, AreTried, IsWithinSome, HasNoFacet, IsFacetThrough, AddsThrough, TellsInside, TellsOutside, AreBelow};

use crate::boundary::{slack, tight};
use iso_base::Memory;
use small_turn::{HalfSpace, hyper};
use std::alloc::Global;

// Some point lies inside the half-space, off its boundary.
fn some_inside<const D: usize>(half: &HalfSpace<D>, points: &[[i32; D]]) -> bool
    requires few { D ≤ 4 }
    requires coefficients { AreSmall (2 ^ 24) half.now.normal }
    requires constant { IsSmall (2 ^ 40) half.now.bound }
    requires small { All (λ point. AreSmall 64 point) points.now }
    ensures { TellsInside half.now.normal half.now.bound points.now result }
{
    for point in points {
        if slack(half, point) > 0 {
            return true;
        }
    }
    false
}

// Some point lies outside the half-space.
fn some_outside<const D: usize>(half: &HalfSpace<D>, points: &[[i32; D]]) -> bool
    requires few { D ≤ 4 }
    requires coefficients { AreSmall (2 ^ 24) half.now.normal }
    requires constant { IsSmall (2 ^ 40) half.now.bound }
    requires small { All (λ point. AreSmall 64 point) points.now }
    ensures { TellsOutside half.now.normal half.now.bound points.now result }
{
    for point in points {
        if slack(half, point) < 0 {
            return true;
        }
    }
    false
}

// The normal is not zero.
fn has_normal<const D: usize>(normal: &[i64; D]) -> bool
    ensures { MatchBool result (Any (λ c. c ≢ pos 0) normal.now) (All (λ c. c ≡ pos 0) normal.now) }
{
    for coefficient in normal {
        if *coefficient != 0 {
            return true;
        }
    }
    false
}

// A point has D coordinates, as its type says.
fn know_length<const D: usize>(point: &[i32; D])
    ensures { length point.now ≡ D }
{}

/// Tells a proof that each of the points has D coordinates, as their type says.
pub fn know_lengths<const D: usize>(points: &[[i32; D]])
    ensures { All (λ p. length p ≡ D) points.now }
{
    for point in points {
        know_length(point);
    }
}

/// The points with these numbers, each of which is the number of a point. D is at most 4.
pub fn points_at<const D: usize>(points: &[[i32; D]], choice: &[usize; D]) -> [[i32; D]; D]
    requires few { D ≤ 4 }
    requires inside { All (λ i. i < length points.now) choice.now }
    ensures { result ≡ members points.now choice.now }
{
    let mut chosen = [[0; D]; D];
    for i in 0..D {
        chosen[i] = points[choice[i]];
    }
    chosen
}

// The set has all these points.
fn has_all<const D: usize>(set: u64, choice: &[usize; D]) -> bool
    requires { All (λ i. i < 64) choice.now }
    ensures { IsTrue result ↔ All (λ i. bit_at set i ≡ 1) choice.now }
{
    for i in choice {
        if (set >> *i) & 1 == 0 {
            return false;
        }
    }
    true
}

// Some set has all these points.
fn some_has_all<const D: usize>(sets: &[u64], choice: &[usize; D]) -> bool
    requires { All (λ i. i < 64) choice.now }
    ensures { IsTrue result ↔ IsWithinSome choice.now sets.now }
{
    for set in sets {
        if has_all(*set, choice) {
            return true;
        }
    }
    false
}

// The facet through the chosen points, where they span a hyperplane and all points lie on one side of it.
fn facet_through<const D: usize>(points: &[[i32; D]], choice: &[usize; D]) -> Option<u64>
    requires least { 2 ≤ D }
    requires greatest { D ≤ 4 }
    requires number { length points.now ≤ 48 }
    requires small { All (λ point. AreSmall 32 point) points.now }
    requires wide { All (λ p. length p ≡ D) points.now }
    requires inside { All (λ i. i < length points.now) choice.now }
    ensures { MatchOption result (HasNoFacet D points.now choice.now) (IsFacetThrough D points.now choice.now) }
{
    let half = hyper(&points_at(points, choice));
    if !has_normal(&half.normal) {
        return None;
    }
    if some_inside(&half, points) && some_outside(&half, points) {
        return None;
    }
    Some(tight(&half, points))
}

/// Adds the set of the facet through D chosen points, where they span a hyperplane, all points lie on one side of it,
/// and no set has them all. Each set that is there is that of a facet, and none is there twice. The conditions on the
/// points are those of `plain_facets`, and each chosen number is that of a point. The only error is want of memory; no
/// set is lost, and none is added but that one, at the end.
pub fn consider<const D: usize>(
    points: &[[i32; D]],
    choice: &[usize; D],
    facets: &mut Vec<u64>,
) -> Result<(), Memory>
    requires least { 2 ≤ D }
    requires greatest { D ≤ 4 }
    requires number { length points.now ≤ 48 }
    requires small { All (λ point. AreSmall 32 point) points.now }
    requires wide { All (λ p. length p ≡ D) points.now }
    requires inside { All (λ i. i < length points.now) choice.now }
    requires known { AreSomeFacets D points.now facets.old.items }
    ensures known { AreSomeFacets D points.now facets.new.items }
    ensures kept { All (Contains facets.new.items) facets.old.items }
    ensures added { AddsThrough D points.now choice.now facets.old.items facets.new.items }
    ensures tried { OnOk result (IsTried D points.now facets.new.items choice.now) }
{
    if some_has_all(facets, choice) {
        return Ok(());
    }
    match facet_through(points, choice) {
        None => Ok(()),
        Some(facet) => match facets.push(facet) {
            Ok(()) => Ok(()),
            Err(_) => Err(Memory),
        },
    }
}

// The choice with one more point.
fn with_next<const D: usize>(chosen: &[usize; D], filled: usize, next: usize) -> [usize; D]
    requires { filled < D }
    ensures more { take (filled + 1) result ≡ take filled chosen.now ++ next ∷ [] }
    ensures inside { (n : ℕ) → AreBelow n (take filled chosen.now) → next < n → AreBelow n (take (filled + 1) result) }
{
    let mut longer = *chosen;
    longer[filled] = next;
    longer
}

// Considers each choice that begins with the first `filled` chosen points and goes on in ascending order from `start`.
fn choose<const D: usize>(
    points: &[[i32; D]],
    chosen: &[usize; D],
    filled: usize,
    start: usize,
    facets: &mut Vec<u64>,
) -> Result<(), Memory>
    requires least { 2 ≤ D }
    requires greatest { D ≤ 4 }
    requires number { length points.now ≤ 48 }
    requires small { All (λ point. AreSmall 32 point) points.now }
    requires wide { All (λ p. length p ≡ D) points.now }
    requires room { filled ≤ D }
    requires inside { All (λ i. i < length points.now) (take filled chosen.now) }
    requires known { AreSomeFacets D points.now facets.old.items }
    ensures known { AreSomeFacets D points.now facets.new.items }
    ensures kept { All (Contains facets.new.items) facets.old.items }
    ensures tried { OnOk result (AreTried D points.now facets.new.items (take filled chosen.now) start) }
{
    if filled == D {
        return consider(points, chosen, facets);
    }
    for i in start..points.len() {
        choose(
            points,
            &with_next(chosen, filled, i),
            filled + 1,
            i + 1,
            facets,
        )?;
    }
    Ok(())
}

/// The sets of the points on the facets of their convex hull, as numbers: bit i is set where point i lies on the
/// facet. Each facet stands there once, in ascending order of the numbers. D is 2, 3 or 4, there are at most 48
/// points, and their coordinates lie from -32 to 32.
///
/// A facet is the set of the points at the boundary of a half-space that holds all points, where D of them lie in no
/// flat of dimension D - 2. It is found by trying each D of the points. After Bhaniramka, Wenger and Crawfis,
/// "Isosurface construction in any dimension using convex hulls" (2004). The only error is want of memory.
pub fn plain_facets<const D: usize>(alloc: Global, points: &[[i32; D]]) -> Result<Vec<u64>, Memory>
    requires least { 2 ≤ D }
    requires greatest { D ≤ 4 }
    requires number { length points.now ≤ 48 }
    requires small { All (λ point. AreSmall 32 point) points.now }
    ensures { IfOk result (λ facets. AreFacetNumbers D points.now facets.items) }
{
    know_lengths(points);
    let mut facets = Vec::new(alloc);
    choose(points, &[0; D], 0, 0, &mut facets)?;
    facets.sort_unstable();
    Ok(facets)
}
