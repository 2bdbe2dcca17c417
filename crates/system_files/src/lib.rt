//! The outside of a program as its calls see it: the files of the system as a shelf, the standard streams as sinks, and
//! the words after the program's name.
#![tactic(auto)]

mod err_sink;
mod faults;
mod file_shelf;
mod given_words;
mod out_sink;
mod put;

pub use err_sink::ErrSink;
pub use file_shelf::FileShelf;
pub use given_words::{WordsFault, words};
pub use out_sink::OutSink;
