ghost use Rattle.std.specs.Prelude.{◌≡◌, ℕ, ◌+◌, ◌*◌, ◌/◌, ◌%◌, ◌^◌, ◌<◌, ◌≤◌, length, map, All, slice_index, ℤ, pos, unsigned_abs};
ghost use Rattle.iso_model.specs.Turns.{total};
ghost use Rattle.iso_model.specs.Values.{IsRegularGrid, IsSamplePoint, IsCentre, HasValue, product, sample_number, value_at as value_of};
ghost use Rattle.edge_vertex.specs.Sums.{AreSmall, sample as sample_of, pair_total, square_total, cube_total};

use nrrd_raw::Grid;

/// The value of a point of a grid, in eighths: at a sample's point 8 times the sample, and at the centre of a cube,
/// in three dimensions, the sum of its eight samples. The point is one of these, and has as many axes as the grid.
pub fn value_at<const D: usize>(grid: &Grid, point: &[u32; D]) -> i64
    requires regular { IsRegularGrid grid.now }
    requires axes { length grid.now.sizes ≡ D }
    requires point { HasValue grid.now.sizes point.now }
    ensures value { result ≡ value_of grid.now.sizes grid.now.samples point.now }
    ensures small { unsigned_abs result ≤ 2 ^ 36 }
{
    let sizes = &grid.sizes[..D];
    let samples = grid.samples.as_slice();
    if point[0] % 2 == 0 {
        sample_value(sizes, samples, point)
    } else {
        centre_value(sizes, samples, point)
    }
}

// The value of a sample's point.
fn sample_value<const D: usize>(sizes: &[u64], samples: &[i64], point: &[u32; D]) -> i64
    requires axes { length sizes.now ≡ D }
    requires few { product sizes.now ≤ 2 ^ 27 }
    requires there { length samples.now ≡ product sizes.now }
    requires samples { AreSmall samples.now }
    requires point { IsSamplePoint sizes.now point.now }
    ensures value { result ≡ value_of sizes.now samples.now point.now }
    ensures small { unsigned_abs result ≤ 2 ^ 36 }
{
    8 * sample(samples, place_of(sizes, point))
}

// The value of a cube's centre.
fn centre_value<const D: usize>(sizes: &[u64], samples: &[i64], point: &[u32; D]) -> i64
    requires axes { length sizes.now ≡ D }
    requires few { product sizes.now ≤ 2 ^ 27 }
    requires there { length samples.now ≡ product sizes.now }
    requires samples { AreSmall samples.now }
    requires point { IsCentre sizes.now point.now }
    ensures value { result ≡ value_of sizes.now samples.now point.now }
    ensures small { unsigned_abs result ≤ 2 ^ 36 }
{
    let first = place_of(sizes, point);
    let row = sizes[0] as usize;
    let slice = row * sizes[1] as usize;
    cube_sum(samples, first, row, slice)
}

// The number of the sample at or below a point, axis 0 fastest.
fn place_of<const D: usize>(sizes: &[u64], point: &[u32; D]) -> usize
    requires axes { length sizes.now ≡ D }
    requires few { product sizes.now ≤ 2 ^ 27 }
    requires inside { (i : ℕ) → i < D → slice_index point.now i / 2 < slice_index sizes.now i }
    ensures place { result ≡ sample_number sizes.now (map (λ c. c / 2) point.now) }
    ensures below { result < product sizes.now }
{
    let mut place = 0;
    for axis in (0..D).rev() {
        place = next_place(place, sizes[axis], point[axis]);
    }
    place
}

// One axis more, which is faster than those before it.
fn next_place(place: usize, size: u64, coordinate: u32) -> usize
    requires { coordinate / 2 + size * place < 2 ^ 32 }
    ensures { result ≡ coordinate / 2 + size * place }
{
    (coordinate / 2) as usize + size as usize * place
}

// The eight samples of a cube.
fn cube_sum(samples: &[i64], first: usize, row: usize, slice: usize) -> i64
    requires inside { first + slice + row + 1 < length samples.now }
    requires few { length samples.now ≤ 2 ^ 27 }
    requires samples { AreSmall samples.now }
    ensures sum { result ≡ cube_total samples.now first row slice }
    ensures small { unsigned_abs result ≤ 2 ^ 35 }
{
    square_sum(samples, first, row) + square_sum(samples, first + slice, row)
}

// The four samples of a square along axes 0 and 1.
fn square_sum(samples: &[i64], first: usize, row: usize) -> i64
    requires inside { first + row + 1 < length samples.now }
    requires few { length samples.now ≤ 2 ^ 27 }
    requires samples { AreSmall samples.now }
    ensures sum { result ≡ square_total samples.now first row }
    ensures small { unsigned_abs result ≤ 2 ^ 34 }
{
    pair_sum(samples, first) + pair_sum(samples, first + row)
}

// Two samples along axis 0.
fn pair_sum(samples: &[i64], first: usize) -> i64
    requires inside { first + 1 < length samples.now }
    requires few { length samples.now ≤ 2 ^ 27 }
    requires samples { AreSmall samples.now }
    ensures sum { result ≡ pair_total samples.now first }
    ensures small { unsigned_abs result ≤ 2 ^ 33 }
{
    sample(samples, first) + sample(samples, first + 1)
}

// A sample.
fn sample(samples: &[i64], place: usize) -> i64
    requires inside { place < length samples.now }
    requires samples { AreSmall samples.now }
    ensures sample { result ≡ sample_of samples.now place }
    ensures small { unsigned_abs result ≤ 2 ^ 32 }
{
    samples[place]
}
