ghost use Rattle.std.specs.Prelude.{◌≡◌, ◌^◌, ◌≤◌, length, map, IfOk, All, unsigned_abs};
ghost use Rattle.iso_model.specs.Values.{IsRegularGrid};
ghost use Rattle.edge_vertex.specs.EdgeValue.{edge_of};
ghost use Rattle.mesh_placing.specs.Placing.{IsCrossed, vertex_on as vertex_of};

use edge_vertex::{EdgeList, crossing, value_at};
use grid_split::Edge;
use iso_base::Memory;
use nrrd_raw::Grid;
use std::alloc::Global;

// The crossings of edges, in their order.
pub fn all_vertices<const D: usize>(
    alloc: Global,
    grid: &Grid,
    edges: &EdgeList<D>,
    iso: i64,
) -> Result<Vec<[i64; D]>, Memory>
    requires regular { IsRegularGrid grid.now }
    requires axes { length grid.now.sizes ≡ D }
    requires iso { unsigned_abs iso ≤ 2 ^ 40 }
    requires crossed { All (IsCrossed grid.now iso) edges.now }
    ensures { IfOk result (λ vertices. vertices.items ≡ map (vertex_of grid.now iso) edges.now) }
{
    let Ok(mut vertices) = Vec::with_capacity(alloc, edges.len() as usize) else {
        return Err(Memory);
    };
    for number in 0..edges.len() {
        let vertex = vertex_on(grid, &edges.edge(number), iso);
        if vertices.push(vertex).is_err() {
            return Err(Memory);
        }
    }
    Ok(vertices)
}

// Where an edge is crossed.
fn vertex_on<const D: usize>(grid: &Grid, edge: &Edge<D>, iso: i64) -> [i64; D]
    requires regular { IsRegularGrid grid.now }
    requires axes { length grid.now.sizes ≡ D }
    requires iso { unsigned_abs iso ≤ 2 ^ 40 }
    requires crossed { IsCrossed grid.now iso (edge_of edge.now) }
    ensures { result ≡ vertex_of grid.now iso (edge_of edge.now) }
{
    let low = value_at(grid, &edge.low);
    let high = value_at(grid, &edge.high);
    crossing(edge, low, high, iso)
}
