//! Tests that compute, of the cells of one cube and of the cubes that touch it, for each kind and dimension.
//! They stand in a crate of their own, so that they are computed once. In `specs`, `AcrossTests` tests the cell across each facet,
//! `ShareTests` what two cells share, `CornerTests` and `ColumnTests` corners and turns, `RingTests` the cells round each edge, and
//! `WayTests` that of two cells at an edge the one is reached from the other without leaving the cubes between them; the files
//! of `proofs` run them. The fixed lists of cells round an edge are constants; `CellsRound` says what holds of such a list, and
//! `RoundsFound` tests them.
#![tactic(auto)]

mod rounds;

pub use rounds::{CENTRES, CUBES, PYRAMIDS, Place, SIMPLICES};
