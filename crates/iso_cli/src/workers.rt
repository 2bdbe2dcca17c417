//! What a work in parts is done with.

use std::alloc::Global;

/// In how many parts a table is made and checked.
pub const PARTS: u32 = 4;

/// What a work in parts is done with: the threads, the memory, and the gate that each part passes.
#[derive(Drop)]
pub struct Workers<'a, R, G> {
    pub rt: &'a R,
    pub alloc: Global,
    pub gate: &'a G,
}
