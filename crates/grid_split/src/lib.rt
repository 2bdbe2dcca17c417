//! The three splits of a grid into cells, and the complex of a grid's cells.
//!
//! A grid of D axes has `sizes[i]` samples along axis i. Its cubes stand between them: `sizes[i] - 1` along axis i,
//! so that a grid with a size of 1 has none. A split has one cell in each cube, or D! simplices, or six pyramids.
//! Points are in half-units: the sample at x is the point 2x.
#![tactic(auto)]

mod complex;
mod cubes;
mod pyramids;
mod rings;
mod simplices;
mod split;

pub use complex::{Complex, edge_between, placed};
pub use rings::Ring;
pub use split::{Edge, Split};
