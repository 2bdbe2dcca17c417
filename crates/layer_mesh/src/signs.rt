//! The signs of the points of cubes, word by word.

ghost use Rattle.std.specs.Prelude.{◌≡◌, ℕ, ◌+◌, ◌*◌, ◌-◌, ◌/◌, ◌%◌, ◌^◌, ◌<◌, ◌≤◌, ◌==◌, length, slice_index};
ghost use Rattle.std.specs.Prelude.{if◌then◌else◌, nat_lt};
ghost use Rattle.lists.specs.Bits.{is_set};
ghost use Rattle.iso_model.specs.Cells.{HasDimension};
ghost use Rattle.bit_rows.specs.Rows.{IsWordOf, row_bit};
ghost use Rattle.grid_rows.specs.Planes.{HasRowOfBits, bit_row};
ghost use Rattle.layer_mesh.specs.PointSigns.{HavePoints, corner_sign};
ghost use Rattle.cube_cells.specs.CubePoints.{set_of};

use bit_rows::{bit, down};
use cube_cells::with_bit;
use grid_rows::{BitPlane, CubeRow};
use iso_model::Kind;

/// The most points of a cube: the corners of one of four dimensions.
const MOST_POINTS: usize = 16;

/// The number of the centre of a cube among its points, behind its eight corners.
const CENTRE: usize = 8;

// The rows of signs in which the points of a row of cubes are: those of the slices below and above, the rows of samples
// at the corners, and in pyramids the row of the centres.
#[derive(Clone, Copy)]
pub(crate) struct PointRows<'a> {
    pub(crate) kind: Kind,
    pub(crate) lower: &'a BitPlane,
    pub(crate) upper: &'a BitPlane,
    pub(crate) centres: &'a BitPlane,
    pub(crate) row: CubeRow,
}

impl<'a> PointRows<'a> {
    // Bit x: the sign of this corner of the cube at x, in a grid of D axes.
    fn corner_word<const D: usize>(&self, corner: usize, w: usize) -> u64
        requires axes { (2 ≤ D) × (D ≤ 4) }
        requires points { HavePoints D self.now }
        requires corner { corner < 2 ^ D }
        requires word { w < self.now.lower.now.words }
        ensures { IsWordOf (corner_sign D self.now corner) w result }
    {
        let side = 1 << (D - 1);
        let plane = self.slice(corner, side);
        let row = plane.row(self.row.corners[corner / 2 % (side / 2)]);
        word_at(row, w, corner % 2 == 1)
    }

    // The signs of the slice in which a corner lies: the first half of them lies in the lower one.
    fn slice(&self, corner: usize, half: usize) -> &'a BitPlane
        ensures { result.now ≡ (if nat_lt corner half then self.now.lower.now else self.now.upper.now) }
    {
        if corner < half {
            self.lower
        } else {
            self.upper
        }
    }
}

// Word `w` of a row, or of the row moved down by one place.
fn word_at(row: &[u64], w: usize, next: bool) -> u64
    requires { w < length row.now }
    ensures { IsWordOf (λ x. row_bit row.now (if next then x + 1 else x)) w result }
{
    if next { down(row, w) } else { row[w] }
}

// The words of the signs at the corners.
fn corner_words<const D: usize>(rows: &PointRows<'_>, w: usize) -> [u64; MOST_POINTS]
    requires axes { (2 ≤ D) × (D ≤ 4) }
    requires points { HavePoints D rows.now }
    requires word { w < rows.now.lower.now.words }
    ensures { (k : ℕ) → k < 2 ^ D → IsWordOf (corner_sign D rows.now k) w (slice_index result k) }
{
    let mut words = [0; MOST_POINTS];
    for corner in 0..1 << D {
        words[corner] = rows.corner_word::<D>(corner, w);
    }
    words
}

// These words with that of the centres, behind those of eight corners.
fn with_centre(words: [u64; MOST_POINTS], rows: &PointRows<'_>, w: usize) -> [u64; MOST_POINTS]
    requires row { HasRowOfBits rows.now.centres.now rows.now.row.number }
    requires word { w < rows.now.centres.now.words }
    ensures centre { slice_index result 8 ≡ slice_index (bit_row rows.now.centres.now rows.now.row.number) w }
    ensures corners { (k : ℕ) → k < 8 → slice_index result k ≡ slice_index words k }
{
    let mut words = words;
    words[CENTRE] = rows.centres.row(rows.row.number)[w];
    words
}

// A word of the signs of each point of the cubes of a row.
#[derive(Clone, Copy)]
pub(crate) struct SignWords {
    pub(crate) words: [u64; MOST_POINTS],
    pub(crate) count: usize,
    ghost few: { count ≤ 16 },
}

impl SignWords {
    ghost use Rattle.layer_mesh.specs.CubeSigns.{AreSignWords};

    // Word `w` of a row of cubes of D axes.
    pub(crate) fn new<const D: usize>(rows: &PointRows<'_>, w: usize) -> SignWords
        requires axes { HasDimension rows.now.kind D }
        requires points { HavePoints D rows.now }
        requires word { w < rows.now.lower.now.words }
        ensures { AreSignWords D rows.now w result }
    {
        let words = corner_words::<D>(rows, w);
        match rows.kind {
            Kind::Pyramid => SignWords {
                words: with_centre(words, rows, w),
                count: CENTRE + 1,
            },
            Kind::Cube | Kind::Simplex => SignWords {
                words,
                count: 1 << D,
            },
        }
    }

    // The signs of the points of the cube at a place: bit k is that of point k.
    pub(crate) fn at(&self, place: u32) -> u32
        requires place { place < 64 }
        ensures { result ≡ set_of (λ k. is_set (slice_index self.now.words k) place) self.now.count }
    {
        let mut signs = 0;
        for point in 0..self.count {
            signs = with_bit(signs, point as u8, bit(self.words[point], place) == 1);
        }
        signs
    }
}
