//! Kept cubes that are given by flags.

ghost use Rattle.std.specs.Prelude.{◌≡◌, ◌+◌, ◌-◌, ◌*◌, ◌<◌, ◌≤◌, ◌^◌, ℕ, length};
ghost use Rattle.lists.specs.Bits.{is_set};
ghost use Rattle.bit_rows.specs.Rows.{IsRowOf, word_count};
ghost use Rattle.grid_rows.specs.RowNumbers.{bordered_rows, cube_rows};
ghost use Rattle.layer_scan.specs.CubePlanes.{AreCubeBits, HasRows, KeepsBorder};
ghost use Rattle.layer_scan.specs.FlaggedCubes.{flag_at, is_flagged};

use bit_rows::with_test;
use grid_rows::{BitPlane, GridRows};

// Writes the kept cubes of a layer from flags, one for each cube, in the order of cube numbers.
pub(crate) fn write_flags(kept: &mut BitPlane, rows: &GridRows, flags: &[bool])
    requires some { 1 ≤ rows.now.length }
    requires words { rows.now.words ≡ word_count rows.now.length }
    requires few { rows.now.words ≤ 2 ^ 40 }
    requires kept { HasRows (bordered_rows rows.now) rows.now.words kept.old }
    requires flags { length flags.now ≡ cube_rows rows.now * (rows.now.length - 1) }
    ensures rows { HasRows (bordered_rows rows.now) rows.now.words kept.new }
    ensures cubes { AreCubeBits rows.now (flag_at rows.now flags.now) kept.new }
    ensures border { KeepsBorder rows.now kept.old kept.new }
{
    let span = rows.length - 1;
    for number in 0..rows.cube_rows() {
        let row = rows.cube_row(number);
        let first = number * span;
        let part = &flags[first..first + span];
        write_flag_row(kept.row_mut(row.number), part);
    }
}

// Writes the flags of a row, and no further bits.
fn write_flag_row(row: &mut [u64], flags: &[bool])
    requires few { length row.old ≤ 2 ^ 40 }
    requires flags { length flags.now ≤ 64 * length row.old }
    ensures long { length row.new ≡ length row.old }
    ensures bits { IsRowOf (is_flagged flags.now) row.new }
{
    for w in 0..row.len() {
        row[w] = flag_word(flags, 64 * w);
    }
}

// The word of the flags from this one on.
fn flag_word(flags: &[bool], first: usize) -> u64
    requires { first ≤ 2 ^ 50 }
    ensures { (k : ℕ) → k < 64 → is_set result k ≡ is_flagged flags.now (first + k) }
{
    let mut word = 0;
    for place in 0..64 {
        word = with_test(word, place, is_flagged(flags, first + place));
    }
    word
}

// Whether there is a flag x, and it is set.
fn is_flagged(flags: &[bool], x: usize) -> bool
    ensures { result ≡ is_flagged flags.now x }
{
    x < flags.len() && flags[x]
}
