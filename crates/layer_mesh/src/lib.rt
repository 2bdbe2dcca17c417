//! The vertices of the mesh of a grid, layer by layer, from the rows of its bipolar edges.
//!
//! Edges are given by their midpoints, in quarter-units: along an axis 4x at the sample x, 4x + 2 between it and the
//! next, and 4x + 1 or 4x + 3 between a sample and the centre of the cube at x.
#![tactic(auto)]

mod cells;
mod crossings;
mod cubes;
mod ends;
mod layers;
mod rows;
mod signs;
mod simplices;
mod vertices;

pub use cells::CubeCells;
pub use cubes::add_cube;
pub use simplices::add_cell;
pub use vertices::{Heights, add_centre_vertices, add_vertices};
