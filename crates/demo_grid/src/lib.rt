//! The demonstration: its grid, which a seed decides, and the text of what it says of a mesh.
#![tactic(auto)]

mod counts;
mod grid;
#[cfg(test)]
mod tests;

pub use counts::{MeshCounts, count_mesh, put_counts};
pub use grid::make_grid;
