//! All faults of a table: each label that fails a rule of acceptance, with the least rule that it fails.
//!
//! The check of [`table_check`] ends at the first of them. For a label that keeps all rules but that of seams, a fault
//! also says at which facet, against which label and at which facet of the other cell.
#![tactic(auto)]

mod faults;
mod laws;
mod lines;
mod list;
mod put;
#[cfg(test)]
mod tests;

pub use faults::Fault;
pub use laws::{first_fault_law, no_fault_law, one_list_law};
pub use lines::fault_text;
pub use list::table_faults;
pub use put::put_faults;
