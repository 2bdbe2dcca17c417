//! What a scan from slice to slice keeps of the slices and of the cubes between them.

ghost use Rattle.std.specs.Prelude.{◌≡◌, ◌*◌, ◌+◌, ◌-◌, ◌≤◌, ◌^◌, ℕ, IfOk, length, unsigned_abs};
ghost use Rattle.iso_model.specs.Values.{Volume};
ghost use Rattle.bit_rows.specs.SampleRows.{is_above, is_clear_at};
ghost use Rattle.grid_rows.specs.RowNumbers.{bordered_rows, cube_rows, sample_rows};
ghost use Rattle.layer_scan.specs.CubePlanes.{AreCubeBits, AreEither, every_at};
ghost use Rattle.layer_scan.specs.FlaggedCubes.{flag_at};
ghost use Rattle.layer_scan.specs.GridPlanes.{TellsKept};
ghost use Rattle.layer_scan.specs.GridStates.{HasSignsBelow, StandsAt, StandsBetween};
ghost use Rattle.layer_scan.specs.GridStates.{TakesFlags, TakesLower, TakesUpper};
ghost use Rattle.layer_scan.specs.ScanPlanes.{HasFewSamples, HasPlanes, IsMovedOn, IsNewPlane};
ghost use Rattle.layer_scan.specs.ScanPlanes.{IsNewScan, IsSameScan};
ghost use Rattle.layer_scan.specs.SlicePlanes.{AreSampleBits};

use crate::flags::write_flags;
use crate::kept::{write_either, write_kept};
use crate::slices::{write_clear, write_signs};
use grid_rows::{BitPlane, GridRows};
use iso_base::Memory;
use std::alloc::Global;
use std::mem::swap;

/// What is kept of two slices, a lower and an upper one, of the layer between them and of the one below, and the signs
/// of the slice below the lower one.
#[derive(Drop)]
pub struct LayerPlanes {
    pub rows: GridRows,
    pub iso: i64,
    pub blank: Option<i64>,
    /// The signs of the samples of the slice below the lower one, and of the two slices, and which of the samples of
    /// the two are not blank.
    pub below_signs: BitPlane,
    pub lower_signs: BitPlane,
    pub upper_signs: BitPlane,
    pub lower_clear: BitPlane,
    pub upper_clear: BitPlane,
    /// The kept cubes below the lower slice, those above it, and both together.
    pub kept_below: BitPlane,
    pub kept: BitPlane,
    pub around: BitPlane,
}

impl LayerPlanes {
    /// The planes of a scan of a grid of these rows that has met nothing. The isovalue is at most 2^40 from 0.
    ///
    /// `Memory` where they do not fit into memory.
    pub fn new(
        alloc: Global,
        rows: GridRows,
        iso: i64,
        blank: Option<i64>,
    ) -> Result<LayerPlanes, Memory>
        requires samples { HasFewSamples rows }
        requires iso { unsigned_abs iso ≤ 2 ^ 40 }
        ensures { IfOk result (IsNewScan rows iso blank) }
    {
        Ok(LayerPlanes {
            rows,
            iso,
            blank,
            below_signs: new_samples(alloc, &rows)?,
            lower_signs: new_samples(alloc, &rows)?,
            upper_signs: new_samples(alloc, &rows)?,
            lower_clear: new_samples(alloc, &rows)?,
            upper_clear: new_samples(alloc, &rows)?,
            kept_below: new_cubes(alloc, &rows)?,
            kept: new_cubes(alloc, &rows)?,
            around: new_cubes(alloc, &rows)?,
        })
    }

    /// Begins with a slice as the lower one.
    pub fn begin(&mut self, slice: &[i64])
        requires planes { HasPlanes self.old }
        requires slice { length slice.now ≡ sample_rows self.old.rows * self.old.rows.length }
        ensures planes { HasPlanes self.new }
        ensures same { IsSameScan self.old self.new }
        ensures signs { AreSampleBits self.old.rows (is_above self.old.iso) slice.now self.new.lower_signs }
        ensures clear { AreSampleBits self.old.rows (is_clear_at self.old.blank) slice.now self.new.lower_clear }
        ensures rest { self.new ≡ record self.old {
          lower_signs = self.new.lower_signs;
          lower_clear = self.new.lower_clear;
        } }
        ensures told { (v : Volume) (s : ℕ) → TakesLower v s slice.now self.old → StandsAt v s self.new }
    {
        write_signs(&mut self.lower_signs, &self.rows, slice, self.iso);
        write_clear(&mut self.lower_clear, &self.rows, slice, self.blank);
    }

    /// Says which cubes of the layer below the lower slice are kept, in the order of cube numbers.
    pub fn set_kept_below(&mut self, flags: &[bool])
        requires planes { HasPlanes self.old }
        requires flags { length flags.now ≡ cube_rows self.old.rows * (self.old.rows.length - 1) }
        ensures planes { HasPlanes self.new }
        ensures same { IsSameScan self.old self.new }
        ensures kept_below { AreCubeBits self.old.rows (flag_at self.old.rows flags.now) self.new.kept_below }
        ensures rest { self.new ≡ record self.old { kept_below = self.new.kept_below } }
        ensures told { (v : Volume) (s : ℕ) → TakesFlags v s flags.now self.old
            → TellsKept v self.old.rows s self.new.kept_below }
    {
        write_flags(&mut self.kept_below, &self.rows, flags);
    }

    /// Takes the slice above the lower one: with it the cubes between the two are known.
    pub fn take_upper(&mut self, upper: &[i64])
        requires planes { HasPlanes self.old }
        requires upper { length upper.now ≡ sample_rows self.old.rows * self.old.rows.length }
        ensures planes { HasPlanes self.new }
        ensures same { IsSameScan self.old self.new }
        ensures signs { AreSampleBits self.old.rows (is_above self.old.iso) upper.now self.new.upper_signs }
        ensures clear { AreSampleBits self.old.rows (is_clear_at self.old.blank) upper.now self.new.upper_clear }
        ensures kept { AreCubeBits self.old.rows (every_at self.old.lower_clear self.new.upper_clear self.old.rows)
            self.new.kept }
        ensures around { AreEither (bordered_rows self.old.rows) self.old.kept_below self.new.kept self.new.around }
        ensures rest { self.new ≡ record self.old {
          upper_signs = self.new.upper_signs;
          upper_clear = self.new.upper_clear;
          kept = self.new.kept;
          around = self.new.around;
        } }
        ensures told { (v : Volume) (s : ℕ) → TakesUpper v s upper.now self.old → StandsBetween v s self.new }
    {
        write_signs(&mut self.upper_signs, &self.rows, upper, self.iso);
        write_clear(&mut self.upper_clear, &self.rows, upper, self.blank);
        write_kept(
            &mut self.kept,
            &self.rows,
            &self.lower_clear,
            &self.upper_clear,
        );
        write_either(&mut self.around, &self.rows, &self.kept_below, &self.kept);
    }

    /// Makes the upper slice the lower one.
    pub fn advance(&mut self)
        requires planes { HasPlanes self.old }
        ensures planes { HasPlanes self.new }
        ensures same { IsSameScan self.old self.new }
        ensures moved { IsMovedOn self.old self.new }
        ensures told { (v : Volume) (s : ℕ) → StandsBetween v s self.old
            → StandsAt v (s + 1) self.new × HasSignsBelow v (s + 1) self.new }
    {
        swap(&mut self.below_signs, &mut self.lower_signs);
        swap(&mut self.lower_signs, &mut self.upper_signs);
        swap(&mut self.lower_clear, &mut self.upper_clear);
        swap(&mut self.kept_below, &mut self.kept);
    }
}

// A plane with a row for each row of samples of a slice.
fn new_samples(alloc: Global, rows: &GridRows) -> Result<BitPlane, Memory>
    requires { HasFewSamples rows.now }
    ensures plane { IfOk result (λ plane. IsNewPlane (sample_rows rows.now) rows.now.words plane) }
{
    BitPlane::new(alloc, rows.sample_rows(), rows.words)
}

// A plane with a row for each row of cubes of a layer, and a border.
pub(crate) fn new_cubes(alloc: Global, rows: &GridRows) -> Result<BitPlane, Memory>
    requires { HasFewSamples rows.now }
    ensures plane { IfOk result (λ plane. IsNewPlane (bordered_rows rows.now) rows.now.words plane) }
{
    BitPlane::new(alloc, rows.bordered_rows(), rows.words)
}
