//! The values of fields.

ghost use Rattle.std.specs.Prelude.{◌≤◌, IsTrue};
ghost use Rattle.nrrd_raw.specs.Shapes.{AreSizes, HasShape, is_width};

/// A sample's bytes, and whether it is signed.
#[derive(Clone, Copy, Drop)]
pub(crate) struct Sample {
    pub width: u8,
    pub signed: bool,
    ghost sized: { IsTrue (is_width width) },
}

/// One to four sizes, and 1 in each place beyond them.
#[derive(Clone, Copy, Drop)]
pub(crate) struct Sizes {
    pub count: u8,
    pub places: [u64; 4],
    ghost shape: { HasShape count places },
    ghost some: { 1 ≤ count },
    ghost sized: { AreSizes places },
}
