//! The top call of the program that lists all faults of a table: words, the file, and the text that is put.
//!
//! Words and files are refused as the program `iso` refuses them behind its word `convert`, with the words for it cited
//! from [`iso_cli`].
#![tactic(auto)]

mod listing;
mod program;
mod verdict;

pub use program::run;
pub use verdict::{Verdict, exit_code};

#[cfg(test)]
mod tests;
