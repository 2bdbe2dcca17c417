//! Where a label breaks the rule of seams.

/// A label's facet, and another label that has the same signs on the corners that meet there and does not have the faces
/// that correspond, with its facet.
#[derive(Clone, Copy, Debug, PartialEq, Eq, Drop)]
pub struct Clash {
    pub facet: u8,
    pub other: u32,
    pub other_facet: u8,
}
