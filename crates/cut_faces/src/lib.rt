//! The faces of the cut of a mesh of tetrahedra, as laws over lists.
//!
//! The crate has no code. Of the files in `proofs`, `Sides` says what the faces of one tetrahedron are, `MeshSides` which
//! tetrahedron lies across a face, `SeamEdges` what becomes of corners and edges there.
#![tactic(auto)]
