//! Numbers of cubes and of samples, by recursion over the axes.

ghost use Rattle.std.specs.Prelude.{◌≡◌, ◌+◌, ◌*◌, ◌^◌, ◌<◌, ◌≤◌, length, All};
ghost use Rattle.iso_model.specs.Splits.{cube_count as count_of, cube_at};
ghost use Rattle.iso_model.specs.Values.{product, sample_number};
ghost use Rattle.mixed_cubes.specs.CubeFaces.{corner_number as corner_number_of};

// The number of cubes of a grid of these sizes.
pub(crate) fn cube_count(sizes: &[u64]) -> u64
    requires sized { All (λ n. 1 ≤ n) sizes.now }
    requires few { product sizes.now ≤ 2 ^ 27 }
    ensures count { result ≡ count_of sizes.now }
    ensures below { result ≤ product sizes.now }
{
    match sizes {
        [] => 1,
        [size, others @ ..] => (*size - 1) * cube_count(others),
    }
}

// The number of the first sample of a cube.
pub(crate) fn first_sample(sizes: &[u64], cube: u64) -> u64
    requires inside { cube < count_of sizes.now }
    requires sized { All (λ n. 1 ≤ n) sizes.now }
    requires few { product sizes.now ≤ 2 ^ 27 }
    ensures number { result ≡ sample_number sizes.now (cube_at sizes.now cube) }
    ensures below { result < product sizes.now }
{
    match sizes {
        [] => 0,
        [size, others @ ..] => {
            let span = *size - 1;
            cube % span + *size * first_sample(others, cube / span)
        }
    }
}

/// How far the sample at a corner of a cube is from the cube's first, in samples, in a grid of at most four axes and 2^27
/// samples: bit i of the corner is its side in axis i, and axis 0 is the fastest.
pub fn corner_number(sizes: &[u64], corner: u64) -> u64
    requires sized { All (λ n. 1 ≤ n) sizes.now }
    requires few { product sizes.now ≤ 2 ^ 27 }
    requires axes { length sizes.now ≤ 4 }
    ensures number { result ≡ corner_number_of sizes.now corner }
    ensures below { result ≤ length sizes.now * product sizes.now }
{
    match sizes {
        [] => 0,
        [size, others @ ..] => corner % 2 + *size * corner_number(others, corner / 2),
    }
}
