//! The convex hull of the points of a labelling.

ghost use Rattle.std.specs.Prelude.{◌^◌, ◌<◌, IfOk};
ghost use Rattle.iso_model.specs.Entries.{label_points};
ghost use Rattle.halfspace.specs.Choices.{AreFacetNumbers};

use crate::points::{bipolar_edges, points_of, positive_corners};
use cell_lattice::Cell;
use hull_dd::facets;
use iso_base::Memory;
use std::alloc::Global;

/// The sets of the points on the facets of the convex hull of a labelling's points, as numbers, ascending: bit i is set
/// where point i lies on the facet.
///
/// The points are the midpoints of the edges of which one end is positive and the other is not, in ascending order of the
/// edges, and then the positive corners, ascending. Bit k of `label` is set where corner k is positive. The only error is
/// want of memory.
pub fn hull<C: Cell<D>, const D: usize>(alloc: Global, label: u32) -> Result<Vec<u64>, Memory>
    requires { label < 2 ^ C.CORNERS }
    ensures { IfOk result (λ facets. AreFacetNumbers D (label_points C.KIND D label) facets.items) }
{
    let edges = bipolar_edges::<C, D>(alloc, label)?;
    let corners = positive_corners::<C, D>(alloc, label)?;
    let points = points_of::<C, D>(alloc, &edges, &corners)?;
    facets(alloc, &points)
}
