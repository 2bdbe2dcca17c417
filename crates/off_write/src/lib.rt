//! The text of a mesh in the Object File Format of Geomview: `OFF` in three dimensions, `nOFF` in two and four.
//!
//! The text is gathered in a fixed buffer and put to a sink in large pieces; no call allocates.
#![tactic(auto)]

mod law;
mod lines;
mod page;
mod write;

pub use law::text_law;
pub use write::{WriteFault, write_mesh};
