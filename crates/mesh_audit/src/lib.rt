//! Whether the simplices of a mesh are glued, whoever made it: no simplex has a repeated number, each face is in two
//! simplices, oppositely, or in one, and in three dimensions the triangles at each vertex are one cycle or one path.
//!
//! The definitions of the findings stand in `specs/`, and `proofs/` has their worked cases and laws.
#![tactic(auto)]

mod audits;
mod findings;
mod groups;
mod laws;
mod links;
mod repeats;
mod sides;
#[cfg(test)]
mod tests;

pub use audits::audit;
pub use findings::{Finding, Off};
pub use laws::one_finding_law;
