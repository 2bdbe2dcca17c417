//! The check of a table: whether each label keeps the six rules of acceptance.
//!
//! Of an accepted table, the simplices of cells that meet in a grid fit together, whatever the labels. [`check`] says
//! which label and rule are the first to fail, and [`certify`] makes a type of accepted tables.
#![tactic(auto)]

mod certified;
mod labels;
mod laws;
mod ordered;
mod parts;
mod verdicts;

pub use certified::{CertifyFault, Checked, certify};
pub use labels::{check, first_failed};
pub use laws::empty_ends_law;
pub use ordered::{OrderedChecked, certify_ordered, check_ordered};
pub use parts::{certify_parts, check_parts};
pub use verdicts::Verdict;
