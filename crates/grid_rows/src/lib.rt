//! How a grid lies in rows along axis 0, and planes of such rows.
//!
//! The last axis goes from slice to slice. The axes between it and axis 0, at most two, are the middle axes; a grid that
//! has fewer is one in which each that it lacks has the size 1 and one place for cubes. So grids of two, three and four
//! axes are one.
//!
//! In a slice, or between two, there are
//!
//! - rows of samples: one for each place along the middle axes;
//! - rows of cubes: one for each place of a cube along them;
//! - rows of edges: one for each midpoint of two samples that are the same or next to each other along each middle axis.
//!
//! Each is numbered with the first middle axis fastest, so that rows of edges are numbered as their midpoints ascend.
#![tactic(auto)]

mod grids;
mod planes;

pub use grids::{CubeRow, EdgeRow, GridRows, MiddleAxis};
pub use planes::{BitPlane, EdgePlane, EdgeWord, planes_law};
