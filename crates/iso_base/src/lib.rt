//! The outside of the program, as its calls see it: shelves that give the bytes of files, sinks that take bytes,
//! both in memory, and gates that the pieces of a work in parts pass.
//!
//! A call that is lent a shelf or a sink can fail only as these contracts say. Each failure raises a count of
//! faults, so that whoever reads a contract knows that no call blames the outside without a cause.
#![tactic(auto)]

mod calls;
mod mem_shelf;
mod mem_sink;
mod outside;
mod parts;
mod put;

pub use mem_shelf::{MemFile, MemShelf};
pub use mem_sink::MemSink;
pub use outside::{Failed, Memory, Shelf, Sink};
pub use parts::{Gate, OpenGate, part_start};
pub use put::put_all;
