//! The mixed cubes, row by row.

ghost use Rattle.std.specs.Prelude.{◌≡◌, ℕ, ◌+◌, ◌*◌, ◌^◌, [], ◌∷◌, ◌++◌, ◌<◌, ◌≤◌, length, slice_index, unsigned_abs, All, IfOk, OnOk, if◌then◌else◌};
ghost use Rattle.iso_model.specs.Values.{IsRegularGrid, product};
ghost use Rattle.mixed_cubes.specs.CubePlaces.{AddsRow, mixed_places};
ghost use Rattle.mixed_cubes.specs.CubeFaces.{corner_number as corner_number_of};

use crate::faces::{are_mixed, face_signs};
use crate::places::{corner_number, cube_count, first_sample};
use iso_base::Memory;
use nrrd_raw::Grid;
use std::alloc::Global;

/// Where a cube of a grid is: its number, and the number of the sample at its first corner.
#[derive(Clone, Copy, Debug, PartialEq, Eq)]
pub struct CubePlace {
    pub number: u32,
    pub sample: u32,
}

/// The cubes of a grid that have a corner at or above the isovalue and one below it, in ascending order of their
/// numbers. The isovalue lies from -2^40 to 2^40.
pub fn mixed_cubes(alloc: Global, grid: &Grid, iso: i64) -> Result<Vec<CubePlace>, Memory>
    requires regular { IsRegularGrid grid.now }
    requires iso { unsigned_abs iso ≤ 2 ^ 40 }
    ensures { IfOk result (λ cubes. cubes.items ≡ mixed_places grid.now.sizes grid.now.samples iso) }
{
    let others = &grid.sizes[1..grid.dims as usize];
    mixed_rows(alloc, grid.sizes[0], others, grid.samples.as_slice(), iso)
}

// The mixed cubes of a grid with this size along axis 0 and those along the others.
fn mixed_rows(
    alloc: Global,
    size: u64,
    others: &[u64],
    samples: &[i64],
    iso: i64,
) -> Result<Vec<CubePlace>, Memory>
    requires axes { length others.now ≤ 3 }
    requires sized { All (λ n. 1 ≤ n) (size ∷ others.now) }
    requires few { product (size ∷ others.now) ≤ 2 ^ 27 }
    requires there { length samples.now ≡ product (size ∷ others.now) }
    ensures { IfOk result (λ cubes. cubes.items ≡ mixed_places (size ∷ others.now) samples.now iso) }
{
    let mut cubes = Vec::new(alloc);
    let span = size - 1;
    let corners = face_corners(size, others);
    let steps = &corners[..1 << others.len()];
    for row in 0..cube_count(others) {
        let first = size * first_sample(others, row);
        add_row(&mut cubes, samples, steps, iso, first, row * span, span)?;
    }
    Ok(cubes)
}

// How far the corners of a face at right angles to axis 0 are from its first. Those of a face are as many as there are
// sets of other axes, and come first.
fn face_corners(size: u64, others: &[u64]) -> [u64; 8]
    requires axes { length others.now ≤ 3 }
    requires sized { All (λ n. 1 ≤ n) (size ∷ others.now) }
    requires few { product (size ∷ others.now) ≤ 2 ^ 27 }
    ensures { (k : ℕ) → k < 8 → slice_index result k ≡ size * corner_number_of others.now k }
{
    let mut steps = [0; 8];
    for corner in 0..8 {
        steps[corner] = size * corner_number(others, corner as u64);
    }
    steps
}

// Adds the mixed cubes of a row, whose first cube has the number `number` and whose first sample has the number `first`.
fn add_row(
    cubes: &mut Vec<CubePlace>,
    samples: &[i64],
    steps: &[u64],
    iso: i64,
    first: u64,
    number: u64,
    span: u64,
) -> Result<(), Memory>
    requires row { first + span < length samples.now }
    requires inside { (k : ℕ) → k < length steps.now → first + span + slice_index steps.now k < length samples.now }
    requires few { length samples.now ≤ 2 ^ 27 }
    requires numbers { number + span ≤ 2 ^ 27 }
    ensures { OnOk result (AddsRow iso samples.now steps.now first number span cubes.old cubes.new) }
{
    let mut near = face_signs(samples, steps, first, iso);
    for place in 0..span {
        let far = face_signs(samples, steps, first + place + 1, iso);
        let cube = CubePlace {
            number: (number + place) as u32,
            sample: (first + place) as u32,
        };
        push_if(cubes, cube, are_mixed(near, far))?;
        near = far;
    }
    Ok(())
}

// Adds a cube where the test holds.
fn push_if(cubes: &mut Vec<CubePlace>, cube: CubePlace, test: bool) -> Result<(), Memory>
    ensures { OnOk result (cubes.new.items ≡ cubes.old.items ++ (if test then cube ∷ [] else [])) }
{
    if !test {
        return Ok(());
    }
    match cubes.push(cube) {
        Ok(()) => Ok(()),
        Err(_) => Err(Memory),
    }
}
