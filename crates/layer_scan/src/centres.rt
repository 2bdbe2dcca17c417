//! The signs of the centres of cubes, in three dimensions.

ghost use Rattle.std.specs.Prelude.{◌≡◌, ◌+◌, ◌*◌, ◌+ℤ◌, ◌&&◌, ◌<◌, ◌≤◌, ◌^◌, ℕ, length, pos, slice_index_or, true};
ghost use Rattle.std.specs.Prelude.{unsigned_abs};
ghost use Rattle.lists.specs.Bits.{is_set};
ghost use Rattle.iso_model.specs.Turns.{total};
ghost use Rattle.iso_model.specs.Values.{is_positive};
ghost use Rattle.bit_rows.specs.Rows.{IsRowOf, row_bit};
ghost use Rattle.grid_rows.specs.RowNumbers.{bordered_rows, sample_rows};
ghost use Rattle.layer_scan.specs.Centres.{AreInside, AreSmall, HoldsCube, IsSound};
ghost use Rattle.layer_scan.specs.Centres.{centre_at, four_samples, is_above_in};
ghost use Rattle.layer_scan.specs.CubePlanes.{AreCubeBits, HasRows, KeepsBorder};

use bit_rows::{bit, with_test};
use grid_rows::{BitPlane, GridRows};

// Writes the signs of the centres of the kept cubes of a layer, in three dimensions, given the samples of the slices on
// both sides.
pub(crate) fn write_centres(
    centres: &mut BitPlane,
    rows: &GridRows,
    kept: &BitPlane,
    lower: &[i64],
    upper: &[i64],
    iso: i64,
)
    requires centres { HasRows (bordered_rows rows.now) rows.now.words centres.old }
    requires kept { HasRows (bordered_rows rows.now) rows.now.words kept.now }
    requires inside { AreInside rows.now kept.now }
    requires lower { length lower.now ≡ sample_rows rows.now * rows.now.length }
    requires upper { length upper.now ≡ sample_rows rows.now * rows.now.length }
    requires small { AreSmall lower.now }
    requires small_above { AreSmall upper.now }
    requires iso { unsigned_abs iso ≤ 2 ^ 40 }
    ensures rows { HasRows (bordered_rows rows.now) rows.now.words centres.new }
    ensures cubes { AreCubeBits rows.now (centre_at rows.now kept.now iso lower.now upper.now) centres.new }
    ensures border { KeepsBorder rows.now centres.old centres.new }
{
    for number in 0..rows.cube_rows() {
        let place = rows.cube_row(number);
        let near = place.corners[0] * rows.length;
        let far = place.corners[1] * rows.length;
        let row = CentreRow {
            lower,
            upper,
            near,
            far,
            iso,
        };
        write_centre_row(centres.row_mut(place.number), kept.row(place.number), &row);
    }
}

// Writes the signs of the centres of the kept cubes of a row.
fn write_centre_row(centres: &mut [u64], kept: &[u64], row: &CentreRow<'_>)
    requires kept { length kept.now ≡ length centres.old }
    requires sound { IsSound row.now }
    requires inside { (x : ℕ) → row_bit kept.now x ≡ true → HoldsCube row.now x }
    ensures long { length centres.new ≡ length centres.old }
    ensures bits { IsRowOf (λ x. row_bit kept.now x && is_above_in row.now x) centres.new }
{
    for w in 0..centres.len() {
        centres[w] = row.word(kept[w], w);
    }
}

// A row of cubes in three dimensions: the samples of the two slices, where the two rows of its corners begin in each,
// and the isovalue.
#[derive(Clone, Copy)]
pub(crate) struct CentreRow<'a> {
    pub(crate) lower: &'a [i64],
    pub(crate) upper: &'a [i64],
    pub(crate) near: usize,
    pub(crate) far: usize,
    pub(crate) iso: i64,
}

impl CentreRow<'_> {
    // Bit k: the centre of the cube at 64 w + k is positive, where bit k of the word of kept cubes is set.
    fn word(&self, kept: u64, w: usize) -> u64
        requires sound { IsSound self.now }
        requires inside { (k : ℕ) → k < 64 → is_set kept k ≡ true → HoldsCube self.now (64 * w + k) }
        ensures { (k : ℕ) → k < 64 → is_set result k ≡ (is_set kept k && is_above_in self.now (64 * w + k)) }
    {
        let mut word = 0;
        for place in 0..64 {
            word = with_test(word, place as usize, self.is_kept_above(kept, w, place));
        }
        word
    }

    // Whether the cube at a place of a word of kept cubes is kept, and its centre positive.
    fn is_kept_above(&self, kept: u64, w: usize, place: u32) -> bool
        requires sound { IsSound self.now }
        requires place { place < 64 }
        requires inside { is_set kept place ≡ true → HoldsCube self.now (64 * w + place) }
        ensures { result ≡ (is_set kept place && is_above_in self.now (64 * w + place)) }
    {
        if bit(kept, place) == 1 {
            self.is_above(64 * w + place as usize)
        } else {
            false
        }
    }

    // Whether the centre of the cube at x is positive.
    fn is_above(&self, x: usize) -> bool
        requires sound { IsSound self.now }
        requires inside { HoldsCube self.now x }
        ensures { result ≡ is_above_in self.now x }
    {
        let lower = square_sum(self.lower, self.near + x, self.far + x);
        let upper = square_sum(self.upper, self.near + x, self.far + x);
        is_positive(lower + upper, self.iso)
    }
}

// Whether a sum of eight samples is at least 8 times the isovalue.
fn is_positive(sum: i64, iso: i64) -> bool
    requires { unsigned_abs iso ≤ 2 ^ 40 }
    ensures { result ≡ is_positive iso sum }
{
    sum >= 8 * iso
}

/// The sum of the four samples of a cube in one slice, which are at most 2^32 from 0.
pub fn square_sum(samples: &[i64], near: usize, far: usize) -> i64
    requires near { near + 1 < length samples.now }
    requires far { far + 1 < length samples.now }
    requires small { AreSmall samples.now }
    ensures sum { result ≡ total (four_samples samples.now near far) }
    ensures small { unsigned_abs result ≤ 2 ^ 34 }
{
    pair_sum(samples, near) + pair_sum(samples, far)
}

// The sum of the sample at this place and the next one.
fn pair_sum(samples: &[i64], place: usize) -> i64
    requires inside { place + 1 < length samples.now }
    requires small { AreSmall samples.now }
    ensures sum { result ≡ slice_index_or samples.now place (pos 0) +ℤ slice_index_or samples.now (place + 1) (pos 0) }
    ensures small { unsigned_abs result ≤ 2 ^ 33 }
{
    samples[place] + samples[place + 1]
}
