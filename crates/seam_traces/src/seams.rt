//! Seams, as the rule of seams is asked over them.

ghost use Rattle.std.specs.Prelude.{◌≡◌, ◌++◌, ◌∷◌, [], ◌<◌, IfOk};
ghost use Rattle.iso_model.specs.Seams.{seams};
ghost use Rattle.cell_lattice.specs.SeamTables.{seam_at};
ghost use Rattle.seam_traces.specs.SeamLists.{seam_of, seams_of, AreSeamsOf};

use crate::places::push;
use cell_lattice::Cell;
use iso_base::Memory;
use std::alloc::Global;

/// A seam of two facets: their corners meet in ascending order, the first of the one that of the other, and so on.
/// `same` says that the two cells have the same parity.
#[derive(Clone, Copy, Debug, PartialEq, Eq, Drop)]
pub struct FacetSeam {
    pub facet: u8,
    pub other: u8,
    pub same: bool,
}

/// The seams of the cell's own kind and dimension, in the order of their numbers.
pub fn cell_seams<C: Cell<D>, const D: usize>(alloc: Global) -> Result<Vec<FacetSeam>, Memory>
    ensures own { IfOk result (λ made. seams_of made.items ≡ seams C.KIND D) }
    ensures seams { IfOk result (λ made. AreSeamsOf C.KIND D (seams_of made.items)) }
{
    let mut seams = Vec::new(alloc);
    for number in 0..C::SEAMS {
        push(&mut seams, cell_seam::<C, D>(number as u8))?;
    }
    Ok(seams)
}

/// The seam of the cell with this number.
fn cell_seam<C: Cell<D>, const D: usize>(number: u8) -> FacetSeam
    requires { number < C.SEAMS }
    ensures { seam_of result ≡ seam_at C.KIND D number }
{
    let seam = C::seam(number);
    FacetSeam {
        facet: seam.facet,
        other: seam.other,
        same: seam.same,
    }
}
