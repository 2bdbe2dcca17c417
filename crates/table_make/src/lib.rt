//! The tables of the convex hull construction: for each labelling of a cell's corners the simplices of its isosurface
//! patch. After Bhaniramka, Wenger and Crawfis, "Isosurface construction in any dimension using convex hulls" (2004).
#![tactic(auto)]

mod classes;
mod entries;
mod generated;
mod parts;

pub use generated::make;
pub use parts::make_parts;
