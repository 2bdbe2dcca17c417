ghost use Rattle.std.specs.Prelude.{◌≡◌, ◌+◌, ◌<◌, ◌≤◌, Some, length, slice_get};
ghost use Rattle.edge_vertex.specs.EdgeValue.{edge_of, edges_of, TellsPlace};

use crate::nearby::NearbyHasher;
use grid_split::Edge;
use indexmap::IndexSet;
use std::hash::BuildHasherDefault;
use std::marker::Model;

/// A set of edges that keeps an order and is searched by a hash under which near edges stand near each other.
pub(crate) type EdgeSet<const D: usize> = IndexSet<Edge<D>, BuildHasherDefault<NearbyHasher>>;

/// Edges, each once, in an order of their own. The place of an edge is its number, counted from 0.
///
/// Contracts see a list of edges.
#[derive(Drop)]
pub struct EdgeList<const D: usize> {
    pub(crate) edges: EdgeSet<D>,
}

impl<const D: usize> Model for EdgeList<D> {
    ghost use Rattle.std.specs.Prelude.{ℕ, List, ◌^◌, ◌<◌, length};
    ghost use Rattle.iso_model.specs.Splits as Splits;
    ghost use Rattle.iso_model.specs.Dimensions.{IsDimension};
    ghost use Rattle.edge_vertex.specs.EdgeValue.{edges_of};

    ghost Value = { List Splits.Edge };

    ghost view = { λ e. edges_of e.edges.keys };

    ghost invariant = { λ e. IsDimension D × (length e.edges.keys < 2 ^ 32) };
}

impl<const D: usize> EdgeList<D> {
    /// The number of edges.
    pub fn len(&self) -> u32
        ensures { result ≡ length self.now }
    {
        self.edges.len() as u32
    }

    /// The edge of this number, which is below `len()`.
    pub fn edge(&self, number: u32) -> Edge<D>
        requires { number < length self.now }
        ensures { slice_get self.now number ≡ Some (edge_of result) }
    {
        match self.edges.get_index(number as usize) {
            Some(edge) => *edge,
            None => unreachable!(),
        }
    }

    /// The number of the edge, or `None` where it is not in the list.
    pub fn place(&self, edge: &Edge<D>) -> Option<u32>
        ensures { TellsPlace self.now (edge_of edge.now) result }
    {
        match self.edges.get_index_of(edge) {
            Some(place) => Some(place as u32),
            None => None,
        }
    }
}
