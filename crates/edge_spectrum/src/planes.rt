//! The edges of a grid between two heights, which are half a step from slice to slice apart.

ghost use Rattle.std.specs.Prelude.{◌≡◌, ◌+◌, ◌*◌, ◌-◌, ◌/◌, ◌^◌, ◌<◌, ◌≤◌, length, slice_index};
ghost use Rattle.iso_model.specs.declared.Kind.TheVariants.{Pyramid as IsPyramid};
ghost use Rattle.grid_rows.specs.RowNumbers.{sample_rows};
ghost use Rattle.edge_middles.specs.MeshMiddles.{middles_between};
ghost use Rattle.edge_spectrum.specs.Growing.{AreDifferences, Grows};
ghost use Rattle.edge_spectrum.specs.Counted.{IsWalked, grid_at};

use crate::cubes::Cubes;
use crate::differences::Differences;
use crate::rows::{axes_of, goes_along};
use grid_rows::GridRows;
use iso_model::Kind;
use nrrd_raw::Grid;

impl Differences {
    /// Adds the edges that join samples in a slice or between two: of half steps from slice to slice an even one stands
    /// in a slice, and an odd one between two.
    pub(crate) fn add_plane(&mut self, kind: Kind, rows: &GridRows, grid: &Grid, step: usize)
        requires sound { AreDifferences self.old }
        requires walked { IsWalked kind grid.now rows.now }
        requires inside { (step + 1) / 2 < slice_index grid.now.sizes (length grid.now.sizes - 1) }
        ensures { Grows self.old self.new
            (λ iso. length (middles_between (grid_at kind grid.now iso) (2 * step) (2 * step + 1))) }
    {
        for number in 0..rows.edge_rows() {
            let row = rows.edge_row(number);
            let near = row_place(rows, row.near, step / 2);
            let far = row_place(rows, row.far, (step + 1) / 2);
            let axes = axes_of(row.along, step % 2 == 1);
            self.add_if(
                goes_along(kind, axes),
                grid.samples.as_slice(),
                near,
                far,
                rows.length,
            );
            self.add_if(
                goes_along(kind, axes + 1),
                grid.samples.as_slice(),
                near,
                far + 1,
                rows.length - 1,
            );
        }
    }

    /// Adds the edges whose midpoints stand between this half step and the next, which are those to centres, where the
    /// split has them.
    pub(crate) fn add_between(&mut self, kind: Kind, rows: &GridRows, grid: &Grid, step: usize)
        requires sound { AreDifferences self.old }
        requires walked { IsWalked kind grid.now rows.now }
        requires inside { step / 2 + 1 < slice_index grid.now.sizes (length grid.now.sizes - 1) }
        ensures { Grows self.old self.new
            (λ iso. length (middles_between (grid_at kind grid.now iso) (2 * step + 1) (2 * step + 2))) }
    {
        match kind {
            Kind::Pyramid => self.add_centres(rows, grid, step),
            Kind::Cube => (),
            Kind::Simplex => (),
        }
    }

    /// Adds the edges from centres to the corners in the slice at a half step or, where it stands between two slices,
    /// in the upper one.
    fn add_centres(&mut self, rows: &GridRows, grid: &Grid, step: usize)
        requires sound { AreDifferences self.old }
        requires walked { IsWalked IsPyramid grid.now rows.now }
        requires inside { step / 2 + 1 < slice_index grid.now.sizes (length grid.now.sizes - 1) }
        ensures { Grows self.old self.new
            (λ iso. length (middles_between (grid_at IsPyramid grid.now iso) (2 * step + 1) (2 * step + 2))) }
    {
        for number in 0..2 * rows.second.cubes {
            let cubes = Cubes {
                first: row_place(rows, number / 2, step / 2),
                row: rows.length,
                slice: rows.sample_rows() * rows.length,
                count: rows.length - 1,
            };
            let corner = row_place(rows, (number + 1) / 2, (step + 1) / 2);
            self.add_row_of_centres(grid.samples.as_slice(), cubes, corner);
        }
    }
}

/// Where a row of samples of a slice begins among all samples.
fn row_place(rows: &GridRows, row: usize, slice: usize) -> usize
    requires some { 1 ≤ rows.now.length }
    requires few { (row + slice * sample_rows rows.now) * rows.now.length ≤ 2 ^ 27 }
    ensures { result ≡ (row + slice * sample_rows rows.now) * rows.now.length }
{
    (row + slice * rows.sample_rows()) * rows.length
}
