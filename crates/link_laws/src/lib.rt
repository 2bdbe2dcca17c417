//! The triangles at a vertex, as laws over lists: along which walks they follow one another.
//!
//! The crate has no code. Of the files in `proofs`, `Walks` is about a step that never leads from two members of a list to one,
//! `Readings` about how a triangle at a vertex is read, and `Links` about the step from each triangle at a vertex to the next.
//! `Arcs` says what is asked of cells in three dimensions, that the triangles of the cells of one arc are joined, and that a step stays on
//! its arc. `Homes` is about the cells of these triangles. `LinkLaw` says what is asked of the ring of cells round an edge, and that the
//! triangles at a vertex then form one cycle, or one path for each arc.
#![tactic(auto)]
