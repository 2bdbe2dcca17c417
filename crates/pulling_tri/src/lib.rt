//! The pulling triangulation of a face of a polytope, which is given by the sets of points of its facets.
//!
//! A set of points is written as a number whose bit i is set where point i is a member, so there are at most 64 points,
//! with the numbers 0 to 63.
//!
//! For proofs above this crate: `pull` ensures `ArePulled` of `iso_model`, which fixes its answer, over the sets of the
//! numbers (`point_set` of `specs/PointSets`). Of the files in `proofs`, `Callers` says when the set of a number is the
//! one that is given by a test (`points-are`); `PointSetLaws` has the meets and bits of these sets and that they ascend (`points-ascend`);
//! `ChainLaws` says that the first vertices along a chain ascend (`firsts_sorted`).
#![tactic(auto)]

mod chains;
mod faces;
mod sets;

pub use chains::pull;
