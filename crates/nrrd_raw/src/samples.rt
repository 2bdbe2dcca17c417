//! The samples behind a header: what their bytes spell, how they are read, and the grid that they make.

mod decode;
pub(crate) mod grids;
pub(crate) mod reading;
pub(crate) mod slices;
