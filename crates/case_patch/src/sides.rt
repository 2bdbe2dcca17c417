//! The side of a simplex, and its orientation.

ghost use Rattle.std.specs.Prelude.{◌≡◌, ◌<◌, All, map, slice_index};
ghost use Rattle.polynomials.specs.Small.{AreSmall};
ghost use Rattle.lists.specs.Orders.{exchange_last};
ghost use Rattle.iso_model.specs.Turns.{minus};
ghost use Rattle.iso_model.specs.Acceptance.{side_turn};
ghost use Rattle.iso_model.specs.Entries.{oriented as oriented_of};
ghost use Rattle.case_patch.specs.SideRows.{side_row, direction, rows_of};
ghost use Rattle.iso_model.specs.Dimensions.{IsDimension};

use cell_lattice::Cell;
use edge_sets::has_member;
use small_turn::turn;

// The vector from one point to another.
fn difference<const D: usize>(to: &[i32; D], from: &[i32; D]) -> [i32; D]
    requires to { AreSmall 32 to.now }
    requires from { AreSmall 32 from.now }
    ensures value { result ≡ minus to.now from.now }
    ensures small { AreSmall 64 result }
{
    let mut vector = [0; D];
    for axis in 0..D {
        vector[axis] = to[axis] - from[axis];
    }
    vector
}

// From the negative to the positive end of an edge.
fn towards_positive<C: Cell<D>, const D: usize>(label: u32, edge: u8) -> [i32; D]
    requires { edge < C.EDGES }
    ensures value { result ≡ direction C.KIND D label edge }
    ensures small { AreSmall 64 result }
{
    let (first, second) = C::edge_ends(edge);
    if has_member(label, first) {
        difference(&C::corner_at(first), &C::corner_at(second))
    } else {
        difference(&C::corner_at(second), &C::corner_at(first))
    }
}

// The vector from the first vertex of a simplex to the next one after this place, or behind the last the direction
// towards the positive end of the first edge.
fn row<C: Cell<D>, const D: usize>(label: u32, tuple: &[u8; D], place: usize) -> [i32; D]
    requires edges { All (λ e. e < C.EDGES) tuple.now }
    requires place { place < D }
    ensures value { result ≡ side_row C.KIND D label tuple.now place }
    ensures small { AreSmall 64 result }
{
    if place + 1 < D {
        difference(&C::edge_mid(tuple[place + 1]), &C::edge_mid(tuple[0]))
    } else {
        towards_positive::<C, D>(label, tuple[0])
    }
}

// The rows whose turn tells the side of a simplex.
fn rows<C: Cell<D>, const D: usize>(label: u32, tuple: &[u8; D]) -> [[i32; D]; D]
    requires { All (λ e. e < C.EDGES) tuple.now }
    ensures value { result ≡ rows_of C.KIND D label tuple.now }
    ensures small { All (λ row. AreSmall 64 row) result }
{
    let mut rows = [[0; D]; D];
    for place in 0..D {
        rows[place] = row::<C, D>(label, tuple, place);
    }
    rows
}

// The turn of a simplex, towards the positive end of its first edge.
fn side<C: Cell<D>, const D: usize>(label: u32, tuple: &[u8; D]) -> i64
    requires { All (λ e. e < C.EDGES) tuple.now }
    ensures { result ≡ side_turn C.KIND D label tuple.now (slice_index tuple.now 0) }
{
    turn(&rows::<C, D>(label, tuple))
}

// The last two places are exchanged.
fn exchanged<const D: usize>(tuple: &[u8; D]) -> [u8; D]
    requires { IsDimension D }
    ensures { result ≡ exchange_last tuple.now }
{
    let mut other = *tuple;
    other.swap(D - 2, D - 1);
    other
}

// A tuple whose turn is not negative, by an exchange of its last two places where it is.
fn oriented<C: Cell<D>, const D: usize>(label: u32, tuple: &[u8; D]) -> [u8; D]
    requires { All (λ e. e < C.EDGES) tuple.now }
    ensures { result ≡ oriented_of C.KIND D label tuple.now }
{
    if side::<C, D>(label, tuple) < 0 {
        exchanged(tuple)
    } else {
        *tuple
    }
}

// Orients each of the tuples.
pub(crate) fn orient<C: Cell<D>, const D: usize>(label: u32, tuples: &mut [[u8; D]])
    requires { All (λ w. All (λ e. e < C.EDGES) w) tuples.old }
    ensures { tuples.new ≡ map (oriented_of C.KIND D label) tuples.old }
{
    for tuple in tuples.iter_mut() {
        *tuple = oriented::<C, D>(label, tuple);
    }
}
