//! The points of a cube: its corners and its centre.

ghost use Rattle.std.specs.Prelude.{◌≡◌, ℕ, ◌+◌, ◌*◌, ◌^◌, ◌<◌, ◌≤◌, length, slice_index, All, int_le, unsigned_abs};
ghost use Rattle.iso_model.specs.Turns.{total};
ghost use Rattle.iso_model.specs.Splits.{cube_count, cube_at};
ghost use Rattle.iso_model.specs.Values.{is_positive as is_positive_in};
ghost use Rattle.iso_model.specs.Dimensions.{IsDimension};
ghost use Rattle.mixed_cubes.specs.CubeFaces.{face_samples};
ghost use Rattle.cube_cells.specs.CubePoints.{HasCornerSigns, HasCentreSign, sizes_of, set_of, corner_sample, point_number as number_of};

use crate::bits::with_bit;

// Where the cube of this number stands, in a grid with these numbers of cubes along its axes.
pub(crate) fn place_at<const D: usize>(spans: &[u32; D], number: u32) -> [u32; D]
    requires { number < cube_count (sizes_of spans.now) }
    ensures { result ≡ cube_at (sizes_of spans.now) number }
{
    let mut rest = number;
    let mut place = [0; D];
    for axis in 0..D {
        let span = spans[axis];
        place[axis] = rest % span;
        rest /= span;
    }
    place
}

// The signs of a cube's points: bit k is set where corner k is positive, and where there are eight corners bit 8 where
// the centre is.
pub(crate) fn point_signs(samples: &[i64], steps: &[u32], first: u32, iso: i64) -> u32
    requires corners { length steps.now ≤ 16 }
    requires inside { (k : ℕ) → k < length steps.now → first + slice_index steps.now k < length samples.now }
    requires few { length samples.now ≤ 2 ^ 27 }
    requires small { All (λ s. unsigned_abs s ≤ 2 ^ 32) samples.now }
    requires iso { unsigned_abs iso ≤ 2 ^ 40 }
    ensures corners { HasCornerSigns iso samples.now steps.now first result }
    ensures centre { HasCentreSign iso samples.now steps.now first result }
{
    let signs = corner_signs(samples, steps, first, iso);
    if steps.len() != 8 {
        return signs;
    }
    with_bit(
        signs,
        8,
        is_positive(corner_sum(samples, steps, first), iso),
    )
}

// Whether the sum of eight samples is at least 8 times the isovalue.
fn is_positive(sum: i64, iso: i64) -> bool
    requires { unsigned_abs iso ≤ 2 ^ 40 }
    ensures { result ≡ is_positive_in iso sum }
{
    sum >= 8 * iso
}

// The signs of a cube's corners: bit k is set where the sample at corner k is at least the isovalue.
fn corner_signs(samples: &[i64], steps: &[u32], first: u32, iso: i64) -> u32
    requires corners { length steps.now ≤ 16 }
    requires inside { (k : ℕ) → k < length steps.now → first + slice_index steps.now k < length samples.now }
    requires few { length samples.now ≤ 2 ^ 27 }
    requires small { All (λ s. unsigned_abs s ≤ 2 ^ 32) samples.now }
    ensures { result ≡ set_of (λ k. int_le iso (corner_sample samples.now steps.now first k)) (length steps.now) }
{
    let mut signs = 0;
    for corner in 0..steps.len() {
        let sample = samples[(first + steps[corner]) as usize];
        signs = with_bit(signs, corner as u8, sample >= iso);
    }
    signs
}

// The sum of the samples at a cube's corners.
fn corner_sum(samples: &[i64], steps: &[u32], first: u32) -> i64
    requires corners { length steps.now ≤ 16 }
    requires inside { (k : ℕ) → k < length steps.now → first + slice_index steps.now k < length samples.now }
    requires few { length samples.now ≤ 2 ^ 27 }
    requires small { All (λ s. unsigned_abs s ≤ 2 ^ 32) samples.now }
    ensures sum { result ≡ total (face_samples samples.now steps.now first) }
    ensures small { unsigned_abs result ≤ 2 ^ 36 }
{
    let mut sum = 0;
    for step in steps {
        sum += samples[(first + *step) as usize];
    }
    sum
}

/// The number of the point of a cube at this offset: that of a corner, and 8 for the centre.
pub fn point_number<const D: usize>(offset: &[u8; D]) -> u8
    requires { IsDimension D }
    ensures number { result ≡ number_of D offset.now }
    ensures few { result < 16 }
{
    if offset[0] == 1 {
        return 8;
    }
    let mut number = 0;
    for axis in 0..D {
        number = with_bit(number, axis as u8, offset[axis] == 2);
    }
    number as u8
}
