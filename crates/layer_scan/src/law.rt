//! What the planes of a scan tell of a grid.

ghost use Rattle.std.specs.Prelude.{ℕ};
ghost use Rattle.iso_model.specs.Values.{Volume};
ghost use Rattle.grid_rows.specs.declared.grids.GridRows.{GridRows};
ghost use Rattle.grid_rows.specs.declared.planes.BitPlane.{BitPlane};
ghost use Rattle.layer_scan.specs.GridPlanes.{HasSignsOfSlice, IsKeptAtLast, IsKeptAtSlice, IsKeptUpright};
ghost use Rattle.layer_scan.specs.GridPlanes.{IsPlainUnlessMixed};

/// A plane that has the signs of the samples of a slice of a grid tells of each sample whether it is at least the
/// isovalue. A plane that tells which cubes of a layer are kept tells around each row of upright edges where one is,
/// the planes of two layers around each row of the slice between them, and that of the last one around the last slice.
/// A cube whose corners do not differ in the planes of the signs of its two slices has corners of one sign.
pub fn scan_law()
    ensures signs { (v : Volume) (rows : GridRows) (s : ℕ) (plane : BitPlane) → HasSignsOfSlice v rows s plane }
    ensures upright { (v : Volume) (rows : GridRows) (s : ℕ) (plane : BitPlane) → IsKeptUpright v rows s plane }
    ensures slices { (v : Volume) (rows : GridRows) (s : ℕ) (below above plane : BitPlane) →
        IsKeptAtSlice v rows s below above plane }
    ensures last { (v : Volume) (rows : GridRows) (s : ℕ) (below : BitPlane) → IsKeptAtLast v rows s below }
    ensures plain { (v : Volume) (rows : GridRows) (s : ℕ) (lower upper : BitPlane) →
        IsPlainUnlessMixed v rows s lower upper }
{}
