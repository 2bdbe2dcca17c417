//! The cubes of a grid that an isosurface can meet: those with a sample at or above the isovalue and one below it.
//!
//! Cubes are numbered with axis 0 fastest. A row is the cubes that differ in axis 0 alone; along it the first sample of
//! a cube goes up by one, and the far face of a cube is the near face of the next.
//!
//! For proofs above this crate: `specs/Mixed` has `is_mixed`, `specs/CubePlaces` has `place_of`. Of the files in `proofs`,
//! `OneSign` says that a cell of a cube that is not mixed has label 0 or the greatest one, whatever the split
//! (`has_plain_label`), and what the value of a corner or a centre is (`even_value`, `odd_value`); `CubeFaces` where the
//! samples of a cube are; `OffsetCases` that corners of cells are corners or centres of cubes; `Powers` how a number is
//! made of its bits.
#![tactic(auto)]

mod cubes;
mod faces;
mod laws;
mod places;
#[cfg(test)]
mod tests;

pub use cubes::{CubePlace, mixed_cubes};
pub use laws::plain_label_law;
pub use places::corner_number;
