//! The cells of a cube of a grid, their labels and their edges, from one reading of the cube's samples.
//!
//! A cube is read at the number of its first sample, from which the samples at its other corners are always equally far.
//! What is read is a bit for each corner, and in three dimensions one for the centre; the label of each cell of the cube
//! is put together of these.
#![tactic(auto)]

mod bits;
mod cells;
mod cubes;
mod points;
mod steps;
#[cfg(test)]
mod tests;

pub use bits::with_bit;
pub use cells::is_bipolar;
pub use cubes::SignedCube;
pub use points::point_number;
pub use steps::CubeSteps;
