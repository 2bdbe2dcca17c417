//! A moment of a mesh of tetrahedra in four dimensions: the mesh of triangles where its last coordinate passes a time.
//!
//! An edge of the mesh of which one end is late and the other is not has one vertex of the cut. The triangles of a
//! tetrahedron are those of a table's entry, with its vertices in ascending order as corners, so the table must be one
//! that the check accepts for corners in order.
#![tactic(auto)]

mod corners;
mod cuts;
mod late;
mod links;
mod positions;
#[cfg(test)]
mod tests;
mod triangles;

pub use cuts::cut_mesh;
