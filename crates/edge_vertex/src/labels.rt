ghost use Rattle.std.specs.Prelude.{◌≡◌, ◌+◌, ◌^◌, ◌<◌, ◌≤◌, None, length, unsigned_abs, if◌then◌else◌};
ghost use Rattle.iso_model.specs.Splits.{cell_count};
ghost use Rattle.iso_model.specs.Values.{IsRegularGrid, volume, label_of as label_in};

use crate::crossings::positive;
use crate::values::value_at;
use grid_split::{Complex, Split};
use nrrd_raw::Grid;

/// The label of a cell: bit k is set where corner k is positive. The cell is below `cells()`, the grid has the sizes
/// of the complex, and the isovalue lies from -2^40 to 2^40.
pub fn label_of<C: Split<D>, const D: usize>(
    complex: &Complex<C, D>,
    cell: u64,
    grid: &Grid,
    iso: i64,
) -> u32
    requires cell { cell < cell_count C.KIND complex.now }
    requires regular { IsRegularGrid grid.now }
    requires sizes { complex.now ≡ grid.now.sizes }
    requires iso { unsigned_abs iso ≤ 2 ^ 40 }
    ensures label { result ≡ label_in (volume C.KIND grid.now iso None) cell }
    ensures few { result < 2 ^ C.CORNERS }
{
    know_axes(complex);
    let mut label = 0;
    for corner in 0..C::CORNERS as u8 {
        let point = complex.corner(cell, corner);
        let value = value_at(grid, &point);
        label = with_corner(label, corner, positive(value, iso));
    }
    label
}

// A complex has as many axes as its cells.
pub fn know_axes<C: Split<D>, const D: usize>(complex: &Complex<C, D>)
    ensures { length complex.now ≡ D }
{
    let _ = complex.cells();
}

// A label of the corners below this one, with this one.
fn with_corner(label: u32, corner: u8, positive: bool) -> u32
    requires corner { corner < 16 }
    requires below { label < 2 ^ corner }
    ensures { result ≡ label + (if positive then 2 ^ corner else 0) }
{
    if positive {
        label + (1 << corner)
    } else {
        label
    }
}
