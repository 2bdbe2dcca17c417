//! Meshes, the faces of their simplices, counted and with signs, and the walk round a vertex.
#![tactic(auto)]

mod face;
mod free;
mod mesh;
mod rounds;
mod walks;

pub use face::{count_below, face_count, face_sum, is_distinct, order_parity};
pub use free::{face_key, free_faces, is_once};
pub use mesh::Mesh;
pub use rounds::{Corner, WalkRoom, walk_round};
pub use walks::{Trail, turned, walk};
