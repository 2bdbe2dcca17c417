//! The grid of the demonstration.

ghost use Rattle.std.specs.Prelude.{◌≡◌, ◌/◌, ◌^◌, ◌≤◌, pos, map, IfOk};
ghost use Rattle.iso_model.specs.Values.{IsRegularGrid};
ghost use Rattle.iso_formats.specs.Demo.{next_number, numbers_after, demo_grid};

use iso_base::Memory;
use nrrd_raw::Grid;
use std::alloc::Global;

/// The grid of the demonstration: `dims` axes of `size` samples each, from 0 to 255, axis 0 fastest.
///
/// The samples are the highest eight bits of the numbers after the seed, in order, in the sequence where
/// 1664525 x + 1013904223, modulo 2^32, comes after x. This is the quick generator of Press, Teukolsky, Vetterling and
/// Flannery, "Numerical Recipes in C", second edition, section 7.1.
pub fn make_grid(alloc: Global, dims: u8, size: u64, seed: u32) -> Result<Grid, Memory>
    requires two_axes { 2 ≤ dims }
    requires four_axes { dims ≤ 4 }
    requires sized { 1 ≤ size }
    requires few { size ^ dims ≤ 2 ^ 27 }
    ensures grid { IfOk result (λ grid. grid ≡ demo_grid dims size seed) }
    ensures regular { IfOk result IsRegularGrid }
{
    let sizes = [size; 4];
    let count = size.pow(u32::from(dims)) as usize;
    let samples = make_samples(alloc, count, seed)?;
    match Grid::new(&sizes[..usize::from(dims)], samples) {
        Ok(grid) => Ok(grid),
        Err(_) => unreachable!(),
    }
}

// As many samples, of the numbers after this one.
fn make_samples(alloc: Global, count: usize, seed: u32) -> Result<Vec<i64>, Memory>
    ensures { IfOk result (λ samples. samples.items ≡ map (λ x. pos (x / 2 ^ 24)) (numbers_after count seed)) }
{
    let Ok(mut samples) = Vec::with_capacity(alloc, count) else {
        return Err(Memory);
    };
    let mut number = seed;
    for _ in 0..count {
        let next = next_number(number);
        let Ok(()) = samples.push(sample_of(next)) else {
            return Err(Memory);
        };
        number = next;
    }
    Ok(samples)
}

fn next_number(number: u32) -> u32
    ensures { result ≡ next_number number }
{
    number.wrapping_mul(1_664_525).wrapping_add(1_013_904_223)
}

// The highest eight bits of a number.
fn sample_of(number: u32) -> i64
    ensures { result ≡ pos (number / 2 ^ 24) }
{
    i64::from(number / (1 << 24))
}
