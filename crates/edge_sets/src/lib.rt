//! Sets of edges and of corners as numbers, and the rules of acceptance that speak of sets of edges alone.
#![tactic(auto)]

mod edges;
mod facets;
mod sets;

pub use edges::keeps_edges;
pub use facets::keeps_off_facets;
pub use sets::{bipolar_set, has_member};
