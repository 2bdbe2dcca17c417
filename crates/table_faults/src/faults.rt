//! What is wrong with a label of a table.

use seam_traces::Clash;

/// A label that fails a rule: the least rule, from 1 to 6, that it fails, and where it is that of seams, its first clash.
#[derive(Clone, Copy, Debug, PartialEq, Eq, Drop)]
pub struct Fault {
    pub label: u32,
    pub rule: u8,
    pub clash: Option<Clash>,
}
