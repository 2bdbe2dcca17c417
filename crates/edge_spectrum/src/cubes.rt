//! Rows of cubes and their centres, in three dimensions.

ghost use Rattle.std.specs.Prelude.{◌≡◌, ◌+◌, ◌^◌, ◌<◌, ◌≤◌, length, unsigned_abs};
ghost use Rattle.edge_spectrum.specs.Growing.{AreDifferences, Grows};
ghost use Rattle.edge_spectrum.specs.Counted.{AreSmall, AreWithin, apart_from, cube_total, pair_total, square_total};
ghost use Rattle.edge_spectrum.specs.Counted.{sample as sample_of};

use crate::differences::Differences;

/// A row of cubes in three dimensions: the place of its first sample, how many places further the next samples along
/// axes 1 and 2 are, and the number of its cubes.
#[derive(Clone, Copy)]
pub(crate) struct Cubes {
    pub(crate) first: usize,
    pub(crate) row: usize,
    pub(crate) slice: usize,
    pub(crate) count: usize,
}

impl Differences {
    /// Adds the edges from the centres of a row of cubes to the two corners that each has in the row of samples that
    /// begins at a place.
    pub(crate) fn add_row_of_centres(&mut self, samples: &[i64], cubes: Cubes, corner: usize)
        requires sound { AreDifferences self.old }
        requires small { AreSmall samples.now }
        requires cubes { AreWithin samples.now cubes }
        requires corner { corner + cubes.count < length samples.now }
        ensures { Grows self.old self.new (λ iso. apart_from samples.now cubes corner cubes.count iso
            + apart_from samples.now cubes (corner + 1) cubes.count iso) }
    {
        for x in 0..cubes.count {
            let value = cube_sum(samples, cubes.first + x, cubes.row, cubes.slice).div_euclid(8);
            self.add(value, sample(samples, corner + x));
            self.add(value, sample(samples, corner + 1 + x));
        }
    }
}

/// The sum of the eight samples of a cube.
fn cube_sum(samples: &[i64], first: usize, row: usize, slice: usize) -> i64
    requires inside { first + slice + row + 1 < length samples.now }
    requires small { AreSmall samples.now }
    ensures sum { result ≡ cube_total samples.now first row slice }
    ensures small { unsigned_abs result ≤ 2 ^ 35 }
{
    square_sum(samples, first, row) + square_sum(samples, first + slice, row)
}

/// The four samples of a square along axes 0 and 1.
fn square_sum(samples: &[i64], first: usize, row: usize) -> i64
    requires inside { first + row + 1 < length samples.now }
    requires small { AreSmall samples.now }
    ensures sum { result ≡ square_total samples.now first row }
    ensures small { unsigned_abs result ≤ 2 ^ 34 }
{
    pair_sum(samples, first) + pair_sum(samples, first + row)
}

/// Two samples along axis 0.
fn pair_sum(samples: &[i64], first: usize) -> i64
    requires inside { first + 1 < length samples.now }
    requires small { AreSmall samples.now }
    ensures sum { result ≡ pair_total samples.now first }
    ensures small { unsigned_abs result ≤ 2 ^ 33 }
{
    sample(samples, first) + sample(samples, first + 1)
}

/// A sample.
pub(crate) fn sample(samples: &[i64], place: usize) -> i64
    requires inside { place < length samples.now }
    requires small { AreSmall samples.now }
    ensures sample { result ≡ sample_of samples.now place }
    ensures small { unsigned_abs result ≤ 2 ^ 32 }
{
    samples[place]
}
