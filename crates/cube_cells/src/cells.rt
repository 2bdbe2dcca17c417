//! Labels of cells.

ghost use Rattle.std.specs.Prelude.{◌≡◌, ◌<◌};
ghost use Rattle.iso_model.specs.Bipolar.{is_bipolar_in};

use crate::bits::is_set;
use cell_lattice::Cell;

/// Whether one end of the edge is positive in the label and the other is not. The edge is below `EDGES`.
pub fn is_bipolar<C: Cell<D>, const D: usize>(label: u32, edge: u8) -> bool
    requires { edge < C.EDGES }
    ensures { result ≡ is_bipolar_in C.KIND D label edge }
{
    let (first, second) = C::edge_ends(edge);
    is_set(label, first) != is_set(label, second)
}
