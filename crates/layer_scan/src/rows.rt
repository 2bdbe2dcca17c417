//! The edges of one row, as bits, and their numbers.

ghost use Rattle.std.specs.Prelude.{◌≡◌, ◌+◌, ◌*◌, ◌<◌, ◌≤◌, ◌^◌, ℕ, All, length, map};
ghost use Rattle.bit_rows.specs.Rows.{IsWordOf};
ghost use Rattle.grid_rows.specs.Planes.{HasRowOfBits, bit_row};
ghost use Rattle.layer_scan.specs.RowsOfEdges.{AreNumbered, HaveWords, around, around_before, rows_of};
ghost use Rattle.layer_scan.specs.RowsOfEdges.{first_edge, first_to_corner, number_at, second_edge, second_to_corner};

use crate::kinds::Directions;
use bit_rows::{down, up_word};
use grid_rows::{BitPlane, EdgeRow, EdgeWord};

// The rows of kept cubes that a row of edges touches.
#[derive(Clone, Copy)]
pub(crate) struct CubesAround<'a> {
    low: &'a [u64],
    high: &'a [u64],
    other_low: &'a [u64],
    other_high: &'a [u64],
}

impl<'a> CubesAround<'a> {
    pub(crate) fn new(kept: &'a BitPlane, row: &EdgeRow) -> CubesAround<'a>
        requires { All (λ n. HasRowOfBits kept.now n) row.now.cubes }
        ensures rows { rows_of result ≡ map (bit_row kept.now) row.now.cubes }
        ensures words { HaveWords kept.now.words result }
    {
        CubesAround {
            low: kept.row(row.cubes[0]),
            high: kept.row(row.cubes[1]),
            other_low: kept.row(row.cubes[2]),
            other_high: kept.row(row.cubes[3]),
        }
    }

    // Bit x: some cube at x that the row touches is kept.
    fn word(&self, w: usize) -> u64
        requires { (n : ℕ) × HaveWords n self.now × (w < n) }
        ensures { IsWordOf (around (rows_of self.now)) w result }
    {
        self.low[w] | (self.high[w] | (self.other_low[w] | self.other_high[w]))
    }

    // Bit x: some cube at x - 1 is.
    fn word_before(&self, w: usize) -> u64
        requires { (n : ℕ) × HaveWords n self.now × (w < n) }
        ensures { IsWordOf (around_before (rows_of self.now)) w result }
    {
        let previous = if w > 0 { self.word(w - 1) } else { 0 };
        up_word(self.word(w), previous)
    }
}

// Writes the bipolar edges of a row that join samples, and numbers them from `count` on; answers the number of the
// next.
pub(crate) fn number_row(
    row: &mut [EdgeWord],
    near: &[u64],
    far: &[u64],
    cubes: &CubesAround<'_>,
    directions: Directions,
    count: u32,
) -> u32
    requires near { length near.now ≡ length row.old }
    requires far { length far.now ≡ length row.old }
    requires cubes { HaveWords (length row.old) cubes.now }
    requires few { number_at (first_edge directions.first near.now far.now (rows_of cubes.now))
        (second_edge directions.second near.now far.now (rows_of cubes.now)) count (64 * length row.old) < 2 ^ 32 }
    ensures long { length row.new ≡ length row.old }
    ensures edges { AreNumbered (first_edge directions.first near.now far.now (rows_of cubes.now))
        (second_edge directions.second near.now far.now (rows_of cubes.now)) count row.new }
    ensures next { result ≡ number_at (first_edge directions.first near.now far.now (rows_of cubes.now))
        (second_edge directions.second near.now far.now (rows_of cubes.now)) count (64 * length row.old) }
{
    let mut count = count;
    for w in 0..row.len() {
        let first = first_word(near, far, cubes, directions.first, w);
        let second = second_word(near, far, cubes, directions.second, w);
        row[w] = EdgeWord {
            first,
            second,
            before: count,
        };
        count += first.count_ones() + second.count_ones();
    }
    count
}

// Bit x: the first edge at x is there, where the split has this direction.
fn first_word(near: &[u64], far: &[u64], cubes: &CubesAround<'_>, there: bool, w: usize) -> u64
    requires near { w < length near.now }
    requires far { length far.now ≡ length near.now }
    requires cubes { HaveWords (length near.now) cubes.now }
    ensures { IsWordOf (first_edge there near.now far.now (rows_of cubes.now)) w result }
{
    if there {
        (near[w] ^ far[w]) & (cubes.word(w) | cubes.word_before(w))
    } else {
        0
    }
}

// Bit x: the second edge at x is there, where the split has this direction.
fn second_word(near: &[u64], far: &[u64], cubes: &CubesAround<'_>, there: bool, w: usize) -> u64
    requires near { w < length near.now }
    requires far { length far.now ≡ length near.now }
    requires cubes { HaveWords (length near.now) cubes.now }
    ensures { IsWordOf (second_edge there near.now far.now (rows_of cubes.now)) w result }
{
    if there {
        (near[w] ^ down(far, w)) & cubes.word(w)
    } else {
        0
    }
}

// Writes the bipolar edges between the centres of a row of cubes and a row of corners, and numbers them from `count`
// on; answers the number of the next.
pub(crate) fn number_centre_row(
    row: &mut [EdgeWord],
    centres: &[u64],
    corners: &[u64],
    kept: &[u64],
    count: u32,
) -> u32
    requires centres { length centres.now ≡ length row.old }
    requires corners { length corners.now ≡ length row.old }
    requires kept { length kept.now ≡ length row.old }
    requires few { number_at (first_to_corner centres.now corners.now kept.now)
        (second_to_corner centres.now corners.now kept.now) count (64 * length row.old) < 2 ^ 32 }
    ensures long { length row.new ≡ length row.old }
    ensures edges { AreNumbered (first_to_corner centres.now corners.now kept.now)
        (second_to_corner centres.now corners.now kept.now) count row.new }
    ensures next { result ≡ number_at (first_to_corner centres.now corners.now kept.now)
        (second_to_corner centres.now corners.now kept.now) count (64 * length row.old) }
{
    let mut count = count;
    for w in 0..row.len() {
        let first = (centres[w] ^ corners[w]) & kept[w];
        let second = (centres[w] ^ down(corners, w)) & kept[w];
        row[w] = EdgeWord {
            first,
            second,
            before: count,
        };
        count += first.count_ones() + second.count_ones();
    }
    count
}
