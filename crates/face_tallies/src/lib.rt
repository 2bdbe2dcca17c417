//! The faces of tuples of edges, each once with its count and its sum, and the rule of acceptance on faces.
//!
//! The face of a tuple without one of its places has the edges at the other places in ascending order. Its sign is that
//! of the place, -1 at odd places counted from 0, times the parity of that sorting. A tuple with a repeated edge has no
//! faces.
//!
//! For proofs above this crate: `tally` ensures `AreTallies` of `specs/Tallies`, which fixes its answer (`tallies-fixed`
//! of `proofs/TallyLaws`). Of a face, `found_tally` has the count and the sum by the tally of its set, `missing_tally`
//! says that both are 0 where there is none, and `tally_of_face` finds the tally of a face that some tuple has.
//! `proofs/SetNumbers` has the bits of the number of a face's set (`face_bits`), the set of given members
//! (`number_of_set`), and that faces with one number are one face (`same_face`).
#![tactic(auto)]

mod faces;
mod gather;
mod parts;
mod rule;
mod signs;

pub use faces::FaceTally;
pub use gather::{TallyRoom, tally};
pub use rule::keeps_faces;
