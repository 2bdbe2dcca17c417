ghost use Rattle.std.specs.Prelude.{◌≡◌, ℕ, ◌^◌, ◌<◌, length, slice_index};
ghost use Rattle.iso_model.specs.Bipolar.{place_in};
ghost use Rattle.cube_cells.specs.SignedCubes.{WhereRead};
ghost use Rattle.edge_vertex.specs.EdgeValue.{edge_of};
ghost use Rattle.mesh_placing.specs.Placing.{HasListedEdges, ArePlacesThere};

use cube_cells::{SignedCube, is_bipolar};
use edge_vertex::EdgeList;
use grid_split::{Edge, Split};

/// No cell has more edges: the cube of four dimensions has as many.
pub const MOST_EDGES: usize = 32;

// The places of the edges that are bipolar in the label of the cell of this rank, by the numbers of the edges.
pub fn cell_places<C: Split<D>, const D: usize>(
    edges: &EdgeList<D>,
    cube: &SignedCube<D>,
    rank: u32,
    label: u32,
) -> [u32; MOST_EDGES]
    requires few { (i : ℕ) → i < D → slice_index cube.now.place i < 2 ^ 27 }
    requires rank { rank < C.PER_CUBE }
    requires listed { HasListedEdges C.KIND C.PER_CUBE edges.now cube.now rank label }
    ensures { WhereRead cube.now (ArePlacesThere C.KIND D C.PER_CUBE edges.now rank label C.EDGES result) }
{
    let mut places = [0; MOST_EDGES];
    for edge in 0..C::EDGES as u8 {
        if is_bipolar::<C, D>(label, edge) {
            places[edge as usize] = place_of(edges, &cube.edge::<C>(rank, edge));
        }
    }
    places
}

// The place of an edge that is in the list.
fn place_of<const D: usize>(edges: &EdgeList<D>, edge: &Edge<D>) -> u32
    requires { place_in edges.now (edge_of edge.now) < length edges.now }
    ensures { result ≡ place_in edges.now (edge_of edge.now) }
{
    match edges.place(edge) {
        Some(place) => place,
        None => unreachable!(),
    }
}
