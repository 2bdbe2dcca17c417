//! The rules of acceptance that speak of one label: on its bipolar edges, off the facets, and on the side to which
//! its simplices are turned.
//!
//! [`Figures`] holds what the rules need of the canonical cell. It is made once for a check, and its calls allocate
//! nothing.
#![tactic(auto)]

mod canonical;
mod cell_lists;
mod rules;
mod side;

pub use canonical::Figures;
