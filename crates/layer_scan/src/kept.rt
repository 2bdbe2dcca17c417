//! The kept cubes of a layer.

ghost use Rattle.std.specs.Prelude.{◌≡◌, ◌||◌, length};
ghost use Rattle.bit_rows.specs.Rows.{IsRowOf, row_bit};
ghost use Rattle.grid_rows.specs.RowNumbers.{bordered_rows, sample_rows};
ghost use Rattle.layer_scan.specs.Corners.{HaveCorners, every_corner};
ghost use Rattle.layer_scan.specs.CubePlanes.{AreCubeBits, AreEither, HasRows, KeepsBorder, every_at};

use crate::corners::CornerRows;
use grid_rows::{BitPlane, GridRows};

// Writes the kept cubes of a layer: those all of whose corners have their bits set in the planes, which say of each
// sample whether it is not blank.
pub(crate) fn write_kept(kept: &mut BitPlane, rows: &GridRows, lower: &BitPlane, upper: &BitPlane)
    requires kept { HasRows (bordered_rows rows.now) rows.now.words kept.old }
    requires lower { HasRows (sample_rows rows.now) rows.now.words lower.now }
    requires upper { HasRows (sample_rows rows.now) rows.now.words upper.now }
    ensures rows { HasRows (bordered_rows rows.now) rows.now.words kept.new }
    ensures cubes { AreCubeBits rows.now (every_at lower.now upper.now rows.now) kept.new }
    ensures border { KeepsBorder rows.now kept.old kept.new }
{
    for number in 0..rows.cube_rows() {
        let row = rows.cube_row(number);
        let corners = CornerRows { lower, upper, row };
        write_kept_row(kept.row_mut(row.number), &corners);
    }
}

// Writes the kept cubes of a row.
fn write_kept_row(kept: &mut [u64], corners: &CornerRows<'_>)
    requires corners { HaveCorners corners.now.lower.now corners.now.upper.now corners.now.row.corners }
    requires words { length kept.old ≡ corners.now.lower.now.words }
    ensures long { length kept.new ≡ length kept.old }
    ensures bits { IsRowOf (every_corner corners.now.lower.now corners.now.upper.now corners.now.row.corners) kept.new }
{
    for w in 0..kept.len() {
        kept[w] = corners.every(w);
    }
}

// Writes the cubes that are kept on one side of a slice or the other.
pub(crate) fn write_either(
    around: &mut BitPlane,
    rows: &GridRows,
    below: &BitPlane,
    above: &BitPlane,
)
    requires around { HasRows (bordered_rows rows.now) rows.now.words around.old }
    requires below { HasRows (bordered_rows rows.now) rows.now.words below.now }
    requires above { HasRows (bordered_rows rows.now) rows.now.words above.now }
    ensures rows { HasRows (bordered_rows rows.now) rows.now.words around.new }
    ensures cubes { AreEither (bordered_rows rows.now) below.now above.now around.new }
{
    for number in 0..rows.bordered_rows() {
        write_either_row(around.row_mut(number), below.row(number), above.row(number));
    }
}

// Writes the bits that are set in one row or the other.
fn write_either_row(around: &mut [u64], below: &[u64], above: &[u64])
    requires below { length below.now ≡ length around.old }
    requires above { length above.now ≡ length around.old }
    ensures long { length around.new ≡ length around.old }
    ensures bits { IsRowOf (λ x. row_bit below.now x || row_bit above.now x) around.new }
{
    for w in 0..around.len() {
        around[w] = below[w] | above[w];
    }
}
