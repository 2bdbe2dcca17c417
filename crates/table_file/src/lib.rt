//! Tables of isosurface patches and their files.
//!
//! A table holds, for each labelling of a cell's corners as positive or negative, the simplices of the patch there:
//! tuples of `D` local edge numbers of the cell, on each of which stands a vertex. [`decode`] reads the bytes of a
//! table, and finds no table in any others.
#![tactic(auto)]

mod bodies;
mod checks;
mod entries;
mod faults;
mod heads;
mod index;
mod indexed_writing;
mod laws;
mod reading;
mod tables;
mod writing;

pub use faults::TableFault;
pub use indexed_writing::encode2;
pub use iso_model::Kind;
pub use laws::{
    file_fault_law, inverse_law, limit_law, one_fault_law, one_table_law, wrong_edge_law,
};
pub use reading::decode;
pub use tables::{AnyTable, Table};
pub use writing::encode;
