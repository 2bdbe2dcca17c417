//! The bits at the corners of cubes.

ghost use Rattle.std.specs.Prelude.{ℕ, ◌<◌, length};
ghost use Rattle.bit_rows.specs.Rows.{IsWordOf};
ghost use Rattle.layer_scan.specs.Corners.{HaveCorners, all_four, every_corner};
ghost use Rattle.layer_scan.specs.Corners.{mixed_corners, some_corner, some_of_four};

use bit_rows::down;
use grid_rows::{BitPlane, CubeRow};

/// The rows of samples at the corners of a row of cubes: the signs, or what tells whether they are not blank.
#[derive(Clone, Copy)]
pub struct CornerRows<'a> {
    pub lower: &'a BitPlane,
    pub upper: &'a BitPlane,
    pub row: CubeRow,
}

impl CornerRows<'_> {
    // Bit x: all corners of the cube at x have their bits set.
    pub(crate) fn every(&self, w: usize) -> u64
        requires corners { HaveCorners self.now.lower.now self.now.upper.now self.now.row.corners }
        requires word { w < self.now.lower.now.words }
        ensures { IsWordOf (every_corner self.now.lower.now self.now.upper.now self.now.row.corners) w result }
    {
        let mut every = u64::MAX;
        let corners: &[usize] = &self.row.corners;
        for number in corners {
            every &= all_four(self.lower.row(*number), self.upper.row(*number), w);
        }
        every
    }

    // Bit x: some corner of the cube at x has its bit set.
    pub(crate) fn some(&self, w: usize) -> u64
        requires corners { HaveCorners self.now.lower.now self.now.upper.now self.now.row.corners }
        requires word { w < self.now.lower.now.words }
        ensures { IsWordOf (some_corner self.now.lower.now self.now.upper.now self.now.row.corners) w result }
    {
        let mut some = 0;
        let corners: &[usize] = &self.row.corners;
        for number in corners {
            some |= some_of_four(self.lower.row(*number), self.upper.row(*number), w);
        }
        some
    }

    /// Bit x: the corners of the cube at x have both kinds of bits.
    pub fn mixed(&self, w: usize) -> u64
        requires corners { HaveCorners self.now.lower.now self.now.upper.now self.now.row.corners }
        requires word { w < self.now.lower.now.words }
        ensures { IsWordOf (mixed_corners self.now.lower.now self.now.upper.now self.now.row.corners) w result }
    {
        self.some(w) & !self.every(w)
    }
}

// Bit x: the cube at x has its four corners in these two rows set.
fn all_four(lower: &[u64], upper: &[u64], w: usize) -> u64
    requires lower { w < length lower.now }
    requires upper { w < length upper.now }
    ensures { IsWordOf (all_four lower.now upper.now) w result }
{
    (lower[w] & down(lower, w)) & (upper[w] & down(upper, w))
}

// Bit x: the cube at x has one of its four corners in these two rows set.
fn some_of_four(lower: &[u64], upper: &[u64], w: usize) -> u64
    requires lower { w < length lower.now }
    requires upper { w < length upper.now }
    ensures { IsWordOf (some_of_four lower.now upper.now) w result }
{
    (lower[w] | down(lower, w)) | (upper[w] | down(upper, w))
}
