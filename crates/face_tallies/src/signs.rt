//! The faces of one tuple, with their signs.

ghost use Rattle.std.specs.Prelude.{◌≡◌, ◌≢◌, ◌<◌, ◌≤◌, ◌%◌, ℕ, count_by, nat_lt, length, true, false, All, IfSome, IfNone};
ghost use Rattle.lists.specs.Orders.{is_distinct, inversions};
ghost use Rattle.edge_sets.specs.Sets.{IsSetOf};
ghost use Rattle.face_tallies.specs.Parts.{part_at};
ghost use Rattle.lists.specs.Bits.{is_set};

use crate::faces::FaceTally;
use edge_sets::has_member;

/// The edges of a tuple, as a set, where none stands twice.
pub(crate) fn distinct_set<const D: usize>(tuple: &[u8; D]) -> Option<u32>
    requires { All (λ e. e < 32) tuple.now }
    ensures repeated { IfNone result (is_distinct tuple.now ≡ false) }
    ensures distinct { IfSome result (λ _. is_distinct tuple.now ≡ true) }
    ensures set { IfSome result (λ set. IsSetOf set tuple.now) }
{
    let mut set = 0;
    for edge in tuple {
        if has_member(set, *edge) {
            return None;
        }
        set = with_edge(set, *edge);
    }
    Some(set)
}

/// The set with an edge.
fn with_edge(set: u32, edge: u8) -> u32
    requires { edge < 32 }
    ensures same { is_set result edge ≡ true }
    ensures others { (e : ℕ) → e ≢ edge → is_set result e ≡ is_set set e }
{
    set | (1 << edge)
}

/// The set without an edge.
fn without_edge(set: u32, edge: u8) -> u32
    requires { edge < 32 }
    ensures same { is_set result edge ≡ false }
    ensures others { (e : ℕ) → e ≢ edge → is_set result e ≡ is_set set e }
{
    set & !(1 << edge)
}

/// How many edges are below this one.
fn count_below(edges: &[u8], edge: u8) -> usize
    ensures { result ≡ count_by (λ other. nat_lt other edge) edges.now }
{
    edges.iter().filter(|other| **other < edge).count()
}

/// 1 where sorting the edges takes an odd number of exchanges, and else 0.
pub(crate) fn order_parity(edges: &[u8]) -> usize
    ensures { result ≡ inversions edges.now % 2 }
{
    let mut parity = 0;
    for (i, edge) in edges.iter().enumerate() {
        parity = (parity + count_below(&edges[i + 1..], *edge) % 2) % 2;
    }
    parity
}

/// The face of a tuple without the edge at a place, counted once, with its sign. The tuple is given with the set of its
/// edges and the parity of its order.
pub(crate) fn face_at<const D: usize>(
    tuple: &[u8; D],
    set: u32,
    parity: usize,
    place: usize,
) -> FaceTally
    requires edges { All (λ e. e < 32) tuple.now }
    requires place { place < D }
    requires distinct { is_distinct tuple.now ≡ true }
    requires set { IsSetOf set tuple.now }
    requires parity { parity ≡ inversions tuple.now % 2 }
    ensures { result ≡ part_at tuple.now place }
{
    let edge = tuple[place];
    let odd = (parity + count_below(tuple, edge) % 2) % 2 == 1;
    FaceTally {
        edges: without_edge(set, edge),
        count: 1,
        sum: if odd { -1 } else { 1 },
    }
}
