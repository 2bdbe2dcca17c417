//! Half-spaces of small whole numbers, and the facets of a finite set of points by the plain way: each D of the points
//! are tried, and the half-space through them is kept where all points lie on one side of it.
//!
//! A set of points of a list is written as a number whose bit i is set where point i is a member. `consider` is one step
//! of the plain way, for callers who know which choices of points are enough.
//!
//! For proofs above this crate: `specs/Choices` has `AreFacetNumbers`, which `plain_facets` ensures of its answer. Of the files in
//! `proofs`, `FacetFound` says that a facet with D points that span a hyperplane is the tight set of the half-space
//! through them (`found`), and that this half-space is tight at each of them (`own_tight`); `FacetSteps` that such a tight
//! set is a facet (`facet_here`); `Bases` that each facet has an ascending choice of D points that span
//! (`facet_choice`); `FoundSets` that the number of a facet's set fixes the set (`same_facet`), how its bits are those
//! of the members, and when a list has the numbers of all facets (`all_facets`); `TightNumbers` has sets that are given
//! by a test.
#![tactic(auto)]

mod boundary;
mod choices;
mod lowest_terms;

pub use boundary::{slack, tight};
pub use choices::{consider, know_lengths, plain_facets, points_at};
pub use lowest_terms::reduce;
