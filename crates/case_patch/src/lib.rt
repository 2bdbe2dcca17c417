//! The entry of a labelling of a canonical cell: the simplices of its isosurface patch, as the convex hull construction of
//! Bhaniramka, Wenger and Crawfis, "Isosurface construction in any dimension using convex hulls" (2004), gives them.
//!
//! The points of a labelling are, in quarter-units, the midpoint of each edge of which one end is positive and the other
//! is not, and twice the point of each positive corner. Of the facets of their convex hull those that lie in no facet of
//! the cell are triangulated by pulling.
#![tactic(auto)]

mod boundary;
mod facets;
mod moved;
mod patches;
mod points;
mod sides;

pub use facets::hull;
pub use patches::{patch, patch_moved};
