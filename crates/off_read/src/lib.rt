//! Meshes read from files in the formats OFF and nOFF, whoever wrote them. Positions are judged and passed over.
//!
//! What a file spells, and the first word of it that does not fit, are defined in `iso_formats` (`MeshFile`). A file is
//! read through a buffer of one size: a reader gives its words, each as what tells it apart from others, and no text is
//! kept. See <http://www.geomview.org/docs/html/OFF.html> for the formats; the profile that is read here takes
//! segments, triangles and tetrahedra.
#![tactic(auto)]

mod faults;
mod meshes;
mod reader;
mod words;

pub use faults::OffFault;
pub use meshes::{AnyOff, read_off};
