//! The rule of seams of the acceptance of a table, without looking at pairs of labels.
//!
//! A seam says that a facet of one cell and a facet of another may be the same points. Two labels that agree on the
//! corners that meet there must have the same sets of D - 1 edges in their facets, each as often, with sums of signs
//! that match. So what counts of a label at a facet is its pattern, the signs of the facet's corners, and its trace, the
//! counts and sums of the sets of edges in the facet. Both are written by places among the corners and the edges of the
//! facet, in ascending order; a seam keeps these orders, so the pattern and the trace on its other side are known.
//!
//! For each facet and pattern the first label with it is kept, its trace, and the first label with it that has another
//! trace. A label keeps the rule at an end of a seam exactly where all traces of its pattern at the other end are alike
//! and the kept one corresponds to its own; else one of these two labels is the least that it clashes with.
#![tactic(auto)]

mod clashes;
mod facets;
mod places;
mod run_traces;
mod seams;
mod table_traces;
mod walks;

pub use clashes::Clash;
pub use run_traces::RunTraces;
pub use seams::{FacetSeam, cell_seams};
pub use table_traces::Traces;
