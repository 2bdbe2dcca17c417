//! What a header states.

use std::marker::Model;

/// What the header of a grid file states.
///
/// Contracts see the sizes as a list with one size for each axis, and the rest as it stands.
#[derive(Clone, Copy, Debug, PartialEq, Eq, Drop)]
pub struct Header {
    /// The number of axes, from 2 to 4.
    pub dims: u8,
    /// The number of samples along each axis, and 1 beyond the last.
    pub sizes: [u64; 4],
    /// The bytes of a sample: 1, 2 or 4.
    pub width: u8,
    /// Samples are two's complement.
    pub signed: bool,
    /// The high byte of a sample stands first. False where a sample has one byte.
    pub big: bool,
}

impl Model for Header {
    ghost use Rattle.std.specs.Prelude.{take, length};
    ghost use Rattle.iso_formats.specs.GridFile as GridFile;
    ghost use Rattle.nrrd_raw.specs.Shapes.{HasShape, all_sizes, axes-stated, sizes-stated};

    ghost Value = { GridFile.Header };

    ghost view = { λ h. record { sizes = take h.dims h.sizes; width = h.width; signed = h.signed; big = h.big } };

    ghost invariant = { λ h. HasShape h.dims h.sizes };

    ghost inverse = { λ h. record { dims = length h.sizes; sizes = all_sizes h.sizes; width = h.width; signed = h.signed; big = h.big } };

    ghost inverse_ok = { λ h shape. λ i. record { dims = axes-stated h.dims h.sizes shape i; sizes = sizes-stated h.dims h.sizes shape i; width = h.width; signed = h.signed; big = h.big } };
}
