//! The path rule of acceptance: in three dimensions the triangles at each bipolar edge form one path from one of the
//! two facets that have the edge to the other.
#![tactic(auto)]

mod rule;
mod walk;

pub use rule::keeps_path;
