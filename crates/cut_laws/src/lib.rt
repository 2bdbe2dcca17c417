//! What the cut of a mesh of tetrahedra at a time is, and what is proved of it over lists.
//!
//! The crate has no code but a struct. `Cuts` in `specs/` says what the cut is and when its triangles are glued, and
//! `proofs/` has its worked cases and its laws.
#![tactic(auto)]

/// Two vertices of a mesh, by their numbers, the smaller one first. Links are ordered by that one, then by the other.
#[derive(Clone, Copy, Debug, PartialEq, Eq, PartialOrd, Ord)]
pub struct Link {
    pub low: u32,
    pub high: u32,
}
