//! Values and signs of the points of a grid, labels of its cells, and the crossings of edges whose ends differ in sign.
//!
//! Points are in half-units: the sample at x is the point 2x, and the centre of the cube at x is 2x + 1 in each axis.
//! Values are in eighths, positions of crossings in millionths.
#![tactic(auto)]

mod crossings;
mod edges;
mod found;
mod labels;
mod nearby;
mod values;

pub use crossings::{crossing, positive};
pub use edges::EdgeList;
pub use found::bipolar;
pub use labels::label_of;
pub use values::value_at;
