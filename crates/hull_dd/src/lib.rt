//! The facets of a finite set of points by double description: the half-spaces that hold the points are described by
//! generators, and one point after the other is added.
//!
//! A set of points is written as a number whose bit i is set where point i is a member. The tight set of a half-space
//! are the points at its boundary. Generators are half-spaces that hold the points so far, such that each half-space
//! that holds them, and is not tight at all of them, is tight at no point at which some generator is not.
//!
//! - `start`: D + 1 points that lie in no hyperplane, with a generator for each of them that is tight at the others. A
//!   test tells that it is not tight at the point itself.
//! - `step`: one point more. A generator that has the point inside stays, one that is tight at it gets the point, and
//!   each two on opposite sides of it give the combination that is tight at it. Of the last two kinds the greatest
//!   tight sets are kept, and a test tells that each tight set lies within one of these.
//! - The facets of all points are the tight sets of the generators. Each is found through D of its points.
//!
//! Where a test fails or a number is too great, the facets are found by the plain way, so the answer is the same.
//!
//! That the generators are enough rests on one lemma (`proofs/Towards`): a half-space that has a further point on one
//! side is covered by a generator that has the point on that side. A generator that covers it is on that side, or is
//! taken off as often as the rest still holds the points; the rest has the point on the same side, and is tight at one
//! more. `proofs/Steps` has one point more, `proofs/Starts` the first ones, and `proofs/Ends` that each facet is found.
//! After Motzkin, Raiffa, Thompson and Thrall, "The double description method" (1953), and Fukuda and Prodon, "Double
//! description method revisited" (1996).
#![tactic(auto)]

mod combine;
mod describe;
mod generators;
mod prune;
mod spread;
mod start;
mod step;

ghost use Rattle.std.specs.Prelude.{◌≤◌, All, IfOk, length};
ghost use Rattle.polynomials.specs.Small.{AreSmall};
ghost use Rattle.halfspace.specs.Choices.{AreFacetNumbers};

pub use crate::describe::described_facets;
use halfspace::{know_lengths, plain_facets};
use iso_base::Memory;
use std::alloc::Global;

/// The sets of the points on the facets of their convex hull, as numbers: bit i is set where point i lies on the
/// facet. Each facet stands there once, in ascending order of the numbers. D is 2, 3 or 4, there are at most 48
/// points, and their coordinates lie from -32 to 32. Condition and answer are those of `halfspace::plain_facets`.
///
/// The only error is want of memory.
pub fn facets<const D: usize>(alloc: Global, points: &[[i32; D]]) -> Result<Vec<u64>, Memory>
    requires least { 2 ≤ D }
    requires greatest { D ≤ 4 }
    requires number { length points.now ≤ 48 }
    requires small { All (λ point. AreSmall 32 point) points.now }
    ensures { IfOk result (λ facets. AreFacetNumbers D points.now facets.items) }
{
    know_lengths(points);
    match described_facets(alloc, points)? {
        Some(facets) => Ok(facets),
        None => plain_facets(alloc, points),
    }
}
