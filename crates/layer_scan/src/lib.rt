//! The bipolar edges of a grid and their numbers, layer by layer, by rows of bits.
//!
//! A layer is what lies between two slices of the last axis. Of each slice a bit is kept for each sample: whether it is
//! at least the isovalue; of each layer one for each cube: whether it is kept. The bipolar edges in a row are where two
//! such rows of signs, one of them moved by a place, differ and a kept cube is at the edge. Rows are numbered in the
//! order of their midpoints, so the number of an edge is what was counted before its word, and the bits before it
//! there.
#![tactic(auto)]

mod centre_numbers;
mod centres;
mod corners;
mod cubes;
mod edges;
mod flags;
mod kept;
mod kinds;
mod law;
mod numbers;
mod rows;
mod scan;
mod slices;

pub use centres::square_sum;
pub use corners::CornerRows;
pub use cubes::{CubeSlots, MOST_PLACES, edge_place};
pub use edges::LayerEdges;
pub use law::scan_law;
pub use scan::LayerPlanes;
