//! What the check says of a table.

/// Whether a table is accepted.
#[derive(Clone, Copy, Debug, PartialEq, Eq, Drop)]
pub enum Verdict {
    /// Each label keeps each rule.
    Accepted,
    /// The least label that fails a rule, and the least rule, from 1 to 6, that this label fails.
    Refused { label: u32, rule: u8 },
}
