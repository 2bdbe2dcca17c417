//! The spectrum of a grid.

ghost use Rattle.std.specs.Prelude.{◌≡◌, ◌+◌, ◌-◌, ◌*◌, ◌^◌, ◌≤◌, ◌≤ℤ◌, ◌-ℤ◌, nat_lt, All, IfOk, length, slice_index};
ghost use Rattle.std.specs.Prelude.{unsigned_abs};
ghost use Rattle.iso_model.specs.Cells.{HasDimension};
ghost use Rattle.iso_model.specs.Splits.{cell_count};
ghost use Rattle.iso_model.specs.Values.{IsRegularGrid};
ghost use Rattle.edge_middles.specs.MeshMiddles.{middles_between};
ghost use Rattle.edge_spectrum.specs.Counted.{IsWalked, grid_at};
ghost use Rattle.edge_spectrum.specs.Growing.{AreDifferences, Grows};
ghost use Rattle.edge_spectrum.specs.Spectrum.{edges_at, isovalues, spectrum_of};

use crate::differences::Differences;
use grid_rows::GridRows;
use grid_split::{Complex, Split};
use iso_base::Memory;
use iso_model::Kind;
use nrrd_raw::Grid;
use std::alloc::Global;

/// For each isovalue from `from` to `to` the number of bipolar edges of the cells, which is the number of vertices of
/// the mesh there. The grid has the sizes of the complex; both ends of the range lie from -2^40 to 2^40, `to` is not
/// below `from`, and there are at most 65,536 isovalues.
pub fn spectrum<C: Split<D>, const D: usize>(
    alloc: Global,
    complex: &Complex<C, D>,
    grid: &Grid,
    from: i64,
    to: i64,
) -> Result<Vec<u64>, Memory>
    requires regular { IsRegularGrid grid.now }
    requires sizes { complex.now ≡ grid.now.sizes }
    requires from { unsigned_abs from ≤ 2 ^ 40 }
    requires to { unsigned_abs to ≤ 2 ^ 40 }
    requires range { from ≤ℤ to }
    requires few { unsigned_abs (to -ℤ from) ≤ 65535 }
    ensures { IfOk result (λ counts. counts.items ≡ spectrum_of C.KIND grid.now from to) }
{
    let has_cells = complex.cells() > 0;
    let mut differences = Differences::new(alloc, from, isovalues(from, to))?;
    differences.add_all::<D>(C::KIND, grid, has_cells);
    differences.counts(alloc)
}

/// How many isovalues there are from one up to another.
fn isovalues(from: i64, to: i64) -> usize
    requires from { unsigned_abs from ≤ 2 ^ 40 }
    requires to { unsigned_abs to ≤ 2 ^ 40 }
    requires range { from ≤ℤ to }
    requires few { unsigned_abs (to -ℤ from) ≤ 65535 }
    ensures is { result ≡ isovalues from to }
    ensures few { result ≤ 65536 }
{
    (to - from) as usize + 1
}

impl Differences {
    /// Adds the edges of the cells of a grid, where it has cells.
    fn add_all<const D: usize>(&mut self, kind: Kind, grid: &Grid, has_cells: bool)
        requires sound { AreDifferences self.old }
        requires regular { IsRegularGrid grid.now }
        requires axes { length grid.now.sizes ≡ D }
        requires fits { HasDimension kind D }
        requires cells { has_cells ≡ nat_lt 0 (cell_count kind grid.now.sizes) }
        ensures { Grows self.old self.new (edges_at kind grid.now) }
    {
        if has_cells {
            self.add_edges::<D>(kind, grid);
        }
    }

    /// Adds the edges of the cells of a grid that has cubes, from slice to slice.
    fn add_edges<const D: usize>(&mut self, kind: Kind, grid: &Grid)
        requires sound { AreDifferences self.old }
        requires regular { IsRegularGrid grid.now }
        requires axes { length grid.now.sizes ≡ D }
        requires fits { HasDimension kind D }
        requires cubes { All (λ n. 2 ≤ n) grid.now.sizes }
        ensures { Grows self.old self.new (edges_at kind grid.now) }
    {
        let sizes = &grid.sizes[..D];
        let rows = GridRows::new(sizes);
        let last = 2 * (sizes[D - 1] as usize - 1);
        self.add_layers(kind, &rows, grid, last);
        self.add_plane(kind, &rows, grid, last);
    }

    /// Adds the edges below a half step.
    fn add_layers(&mut self, kind: Kind, rows: &GridRows, grid: &Grid, last: usize)
        requires sound { AreDifferences self.old }
        requires walked { IsWalked kind grid.now rows.now }
        requires inside { last + 2 ≤ 2 * slice_index grid.now.sizes (length grid.now.sizes - 1) }
        ensures { Grows self.old self.new (λ iso. length (middles_between (grid_at kind grid.now iso) 0 (2 * last))) }
    {
        for step in 0..last {
            self.add_plane(kind, rows, grid, step);
            self.add_between(kind, rows, grid, step);
        }
    }
}
