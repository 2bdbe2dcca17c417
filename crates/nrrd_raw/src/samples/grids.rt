//! Grids of samples.

ghost use Rattle.std.specs.Prelude.{◌≡◌, ◌≤◌, ◌*◌, ◌↔◌, length, All, IfOk, IfErr, IsOk, IsTrue};
ghost use Rattle.iso_model.specs.Values.{IsRegularGrid, product};
ghost use Rattle.nrrd_raw.specs.Shapes.{AreSizes, InRange, all_sizes};

use std::marker::Model;

/// The most samples that a grid has.
pub(crate) const SAMPLE_LIMIT: u128 = 1 << 27;

/// A grid of samples.
///
/// Contracts see the sizes as a list with one size for each axis, and the samples as a list, axis 0 fastest.
#[derive(Drop)]
pub struct Grid {
    /// The number of axes, from 2 to 4.
    pub dims: u8,
    /// The number of samples along each axis, and 1 beyond the last.
    pub sizes: [u64; 4],
    /// The samples, axis 0 fastest.
    pub samples: Vec<i64>,
}

impl Model for Grid {
    ghost use Rattle.std.specs.Prelude.{take};
    ghost use Rattle.iso_model.specs.Values as Values;
    ghost use Rattle.nrrd_raw.specs.Shapes.{HasShape};

    ghost Value = { Values.Grid };

    ghost view = { λ g. record { sizes = take g.dims g.sizes; samples = g.samples.items } };

    ghost invariant = { λ g. HasShape g.dims g.sizes };
}

impl Grid {
    /// The grid with these sizes, one for each axis, and these samples, axis 0 fastest. It hands the samples back where
    /// the grid is not regular: it has two to four axes, sizes from 1 to 2^32 - 1, at most 2^27 samples, as many as the
    /// sizes say, and each from -2^31 to 2^32 - 1.
    pub fn new(sizes: &[u64], samples: Vec<i64>) -> Result<Grid, Vec<i64>>
        ensures grid { IfOk result (λ grid. grid ≡ record { sizes = sizes.now; samples = samples.items }) }
        ensures regular { IfOk result IsRegularGrid }
        ensures handed_back { IfErr result (λ back. back ≡ samples) }
        ensures accepted { IsRegularGrid (record { sizes = sizes.now; samples = samples.items }) → IsOk result }
    {
        if is_regular(sizes, &samples) {
            Ok(Grid {
                dims: sizes.len() as u8,
                sizes: four_places(sizes),
                samples,
            })
        } else {
            Err(samples)
        }
    }
}

/// These are the sizes and samples of a regular grid.
fn is_regular(sizes: &[u64], samples: &[i64]) -> bool
    ensures { IsTrue result ↔ IsRegularGrid (record { sizes = sizes.now; samples = samples.now }) }
{
    if sizes.len() < 2 || 4 < sizes.len() || !are_sizes(sizes) {
        return false;
    }
    let count = count_of(sizes);
    count <= SAMPLE_LIMIT && count == samples.len() as u128 && are_samples(samples)
}

/// Each size is from 1 to 2^32 - 1.
fn are_sizes(sizes: &[u64]) -> bool
    ensures { IsTrue result ↔ AreSizes sizes.now }
{
    for size in sizes {
        if *size < 1 || 4294967295 < *size {
            return false;
        }
    }
    true
}

/// Each sample is from -2^31 to 2^32 - 1.
fn are_samples(samples: &[i64]) -> bool
    ensures { IsTrue result ↔ All InRange samples.now }
{
    for sample in samples {
        if *sample < -2147483648 || 4294967295 < *sample {
            return false;
        }
    }
    true
}

/// The sizes, and 1 in each place beyond them.
fn four_places(sizes: &[u64]) -> [u64; 4]
    requires { length sizes.now ≤ 4 }
    ensures { result ≡ all_sizes sizes.now }
{
    let mut places = [1; 4];
    places[..sizes.len()].copy_from_slice(sizes);
    places
}

/// The product of the sizes.
fn count_of(sizes: &[u64]) -> u128
    requires two_axes { 2 ≤ length sizes.now }
    requires four_axes { length sizes.now ≤ 4 }
    requires sized { AreSizes sizes.now }
    ensures { result ≡ product sizes.now }
{
    let places = four_places(sizes);
    area(places[0], places[1]) * area(places[2], places[3])
}

/// The product of two sizes.
pub(crate) fn area(a: u64, b: u64) -> u128
    ensures { result ≡ a * b }
{
    u128::from(a) * u128::from(b)
}
