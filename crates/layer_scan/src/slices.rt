//! What is kept of a slice: a bit for each sample.

ghost use Rattle.std.specs.Prelude.{◌≡◌, ◌*◌, length};
ghost use Rattle.bit_rows.specs.Rows.{word_count};
ghost use Rattle.bit_rows.specs.SampleRows.{is_above, is_clear_at};
ghost use Rattle.grid_rows.specs.RowNumbers.{sample_rows};
ghost use Rattle.layer_scan.specs.CubePlanes.{HasRows};
ghost use Rattle.layer_scan.specs.SlicePlanes.{AreSampleBits};

use bit_rows::{set_clear, set_signs};
use grid_rows::{BitPlane, GridRows};

// Writes of each sample of a slice whether it is at least the isovalue.
pub(crate) fn write_signs(signs: &mut BitPlane, rows: &GridRows, slice: &[i64], iso: i64)
    requires words { rows.now.words ≡ word_count rows.now.length }
    requires signs { HasRows (sample_rows rows.now) rows.now.words signs.old }
    requires slice { length slice.now ≡ sample_rows rows.now * rows.now.length }
    ensures rows { HasRows (sample_rows rows.now) rows.now.words signs.new }
    ensures bits { AreSampleBits rows.now (is_above iso) slice.now signs.new }
{
    for number in 0..rows.sample_rows() {
        let first = number * rows.length;
        let samples = &slice[first..first + rows.length];
        set_signs(signs.row_mut(number), samples, iso);
    }
}

// Writes of each sample of a slice whether it is not the blank value.
pub(crate) fn write_clear(clear: &mut BitPlane, rows: &GridRows, slice: &[i64], blank: Option<i64>)
    requires words { rows.now.words ≡ word_count rows.now.length }
    requires clear { HasRows (sample_rows rows.now) rows.now.words clear.old }
    requires slice { length slice.now ≡ sample_rows rows.now * rows.now.length }
    ensures rows { HasRows (sample_rows rows.now) rows.now.words clear.new }
    ensures bits { AreSampleBits rows.now (is_clear_at blank) slice.now clear.new }
{
    for number in 0..rows.sample_rows() {
        let first = number * rows.length;
        let samples = &slice[first..first + rows.length];
        set_clear(clear.row_mut(number), samples, blank);
    }
}
