//! What is known of a face.

/// A face of tuples of D edges: how many tuples have it, and the sum of the signs with which they have it.
#[derive(Clone, Copy, Debug, PartialEq, Eq)]
pub struct FaceTally {
    /// Its D - 1 edges, as a set: bit e is set where edge e is a member.
    pub edges: u32,
    /// How many tuples have the face.
    pub count: u64,
    /// The sum of the signs, 1 or -1, with which these tuples have the face.
    pub sum: i64,
}
