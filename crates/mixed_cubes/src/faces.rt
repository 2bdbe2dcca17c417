//! The signs of the samples of a face.

ghost use Rattle.std.specs.Prelude.{◌≡◌, ℕ, ◌+◌, ◌<◌, ◌≤◌, not, ◌&&◌, ◌||◌, length, slice_index, int_le};
ghost use Rattle.std.specs.List.{list_any};
ghost use Rattle.mixed_cubes.specs.CubeFaces.{face_samples};

// Whether some sample is at least the isovalue, and whether some sample is below it.
#[derive(Clone, Copy)]
pub(crate) struct Signs {
    pub(crate) above: bool,
    pub(crate) below: bool,
}

// The signs of the samples of the face whose first sample has this number.
pub(crate) fn face_signs(samples: &[i64], steps: &[u64], first: u64, iso: i64) -> Signs
    requires inside { (k : ℕ) → k < length steps.now → first + slice_index steps.now k < length samples.now }
    ensures above { result.above ≡ list_any (λ s. int_le iso s) (face_samples samples.now steps.now first) }
    ensures below { result.below ≡ list_any (λ s. not (int_le iso s)) (face_samples samples.now steps.now first) }
{
    let mut above = false;
    let mut below = false;
    for step in steps {
        let positive = samples[(first + *step) as usize] >= iso;
        above |= positive;
        below |= !positive;
    }
    Signs { above, below }
}

// Whether of the samples of two faces some are at least the isovalue and some are below it.
pub(crate) fn are_mixed(near: Signs, far: Signs) -> bool
    ensures { result ≡ ((near.above || far.above) && (near.below || far.below)) }
{
    (near.above | far.above) & (near.below | far.below)
}
