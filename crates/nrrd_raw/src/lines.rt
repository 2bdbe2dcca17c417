//! The lines of a header: how its bytes come, where a line ends, and what it says.

pub(crate) mod content;
pub(crate) mod ends;
pub(crate) mod fronts;
