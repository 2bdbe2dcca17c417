//! Generators of the half-spaces that hold some points.

use small_turn::HalfSpace;

/// A half-space that holds the points so far, and the set of those of them at which it is tight: bit i is set where it
/// is tight at point i.
#[derive(Clone, Copy, Debug, PartialEq, Eq)]
pub(crate) struct Generator<const D: usize> {
    pub half: HalfSpace<D>,
    pub tight: u64,
}
