//! What the rules of acceptance say of the entries of an accepted table, tuple by tuple and face by face.
//!
//! The crate has no code. Of the files in `proofs`, `LabelLaws` has all that is said of the entry of one label,
//! `PathLaws` what is said besides of its triangles at an edge in three dimensions, and `SeamLaws` and `SeamSides`
//! what is said of two entries that meet across a seam.
#![tactic(auto)]
