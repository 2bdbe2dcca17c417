//! The mesh of a grid by a table at an isovalue: a vertex where an edge of a cell is crossed, and in each cell the
//! simplices of the table's entry.
#![tactic(auto)]

mod meshes;
mod places;
mod simplices;
#[cfg(test)]
mod tests;
mod vertices;

pub use meshes::place;
pub use places::MOST_EDGES;
pub use simplices::add_tuples;
