//! The spectrum of a grid: how many bipolar edges its cells have at each isovalue of a range, which is how many
//! vertices its mesh has there.
//!
//! An edge is bipolar at the isovalues above the value at one of its ends, and not above that at the other. So it adds
//! one to the counts from one place of the range up to another, and each edge is looked at once, whatever the range.
//! Edges are met row by row: those of a row that go in one direction join two rows of samples.
//!
//! In `specs`: `Spectrum` says what is counted; `Growing` how the counts grow by what is added; `Counted` what a row of
//! edges adds. In `proofs`: `StepSums` adds up differences; `RowsThere` and `CentresThere` go from the edges of a row
//! to the samples at their ends; `Walked` from the rows to all edges of a grid.
#![tactic(auto)]

mod cubes;
mod differences;
mod planes;
mod rows;
mod spectra;

pub use spectra::spectrum;
