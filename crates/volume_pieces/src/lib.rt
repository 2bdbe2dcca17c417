//! The cells of a grid, with their edges and facets, as cells that are glued: the laws that gluing asks of them.
//!
//! The crate has no code. Of the files in `proofs`, `PiecesOf` says what the cells, places and facets are.
#![tactic(auto)]
