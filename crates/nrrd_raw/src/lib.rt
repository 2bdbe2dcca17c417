//! Grids of samples from NRRD files with raw encoding.
//!
//! A file is a header of text lines and the samples' bytes behind it, in one file, as `unu save -e raw`, ITK and
//! `dcm2niix` write it. The format is described at <https://teem.sourceforge.net/nrrd/format.html>; the profile that is
//! read here takes grids of two to four axes with samples of 8, 16 or 32 bits, and refuses every other file by the
//! first cause that its bytes have.
#![tactic(auto)]

mod faults;
mod fields;
mod lines;
mod pieces;
mod reading;
mod samples;

pub use faults::GridFault;
pub use fields::headers::Header;
pub use iso_formats::Field;
pub use reading::{read_grid, read_header};
pub use samples::grids::Grid;
pub use samples::reading::read_samples;
pub use samples::slices::SliceReader;
