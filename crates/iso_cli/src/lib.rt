//! The top call of the program: words, files, and the text that is put.
#![tactic(auto)]

mod audits;
mod checked;
mod demo;
mod files;
mod laws;
mod line;
mod output;
mod program;
mod read;
mod spectra;
mod status;
mod workers;

pub use files::read_table;
pub use laws::one_answer_law;
pub use line::status_text;
pub use program::run;
pub use status::{GridCause, OffCause, Status, TableCause, TableForm};
