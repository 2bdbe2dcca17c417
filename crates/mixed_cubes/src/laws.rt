//! What a cube that is not mixed says of its cells.

ghost use Rattle.std.specs.Prelude.{ℕ, ℤ};
ghost use Rattle.iso_model.specs.declared.Kind.{Kind};
ghost use Rattle.iso_model.specs.Values.{Grid};
ghost use Rattle.mixed_cubes.specs.Mixed.{HasPlainLabel};

/// The cells of a cube that is not mixed have one sign at all their corners, whatever the split: simplices have corners
/// of the cube, and the centre of a cube lies where its samples do. So none of their edges is bipolar.
pub fn plain_label_law()
    ensures law { (kind : Kind) (g : Grid) (iso : ℤ) (cell : ℕ) → HasPlainLabel kind g iso cell }
{}
