//! Which points of a labelling lie in the facets of its cell.
//!
//! Points are given by the edges of the midpoints and the corners that follow them.

ghost use Rattle.std.specs.Prelude.{◌≡◌, ◌+◌, ◌-◌, ◌<◌, ◌≤◌, ◌++◌, ◌∷◌, [], nat_lt, if◌then◌else◌, All, IfOk, OnOk, length, map, filter, slice_index};
ghost use Rattle.lists.specs.Orders.{numbers};
ghost use Rattle.case_patch.specs.BoundarySets.{is_off, facet_set, is_of};

use cell_lattice::Cell;
use edge_sets::has_member;
use iso_base::Memory;
use std::alloc::Global;

// Whether the point of this number is one of the facet's: its edge or its corner is.
fn is_point_of(
    facet_edges: u32,
    facet_corners: u32,
    edges: &[u8],
    corners: &[u8],
    point: usize,
) -> bool
    requires edges { All (λ e. e < 32) edges.now }
    requires corners { All (λ k. k < 32) corners.now }
    requires point { point < length edges.now + length corners.now }
    ensures { result ≡ is_of facet_edges facet_corners edges.now corners.now point }
{
    if point < edges.len() {
        has_member(facet_edges, edges[point])
    } else {
        has_member(facet_corners, corners[point - edges.len()])
    }
}

// The set of the points in a facet of the cell, as a number.
fn facet_points<C: Cell<D>, const D: usize>(facet: u8, edges: &[u8], corners: &[u8]) -> u64
    requires facet { facet < C.FACETS }
    requires edges { All (λ e. e < C.EDGES) edges.now }
    requires corners { All (λ k. k < C.CORNERS) corners.now }
    requires few { length edges.now + length corners.now ≤ 48 }
    ensures { result ≡ facet_set C.KIND D edges.now corners.now facet }
{
    let facet_edges = C::facet_edges(facet);
    let facet_corners = C::facet_mask(facet);
    let mut set = 0;
    for point in 0..edges.len() + corners.len() {
        if is_point_of(facet_edges, facet_corners, edges, corners, point) {
            set |= 1 << point;
        }
    }
    set
}

// The sets of the points in each facet of the cell.
pub(crate) fn boundary_sets<C: Cell<D>, const D: usize>(
    alloc: Global,
    edges: &[u8],
    corners: &[u8],
) -> Result<Vec<u64>, Memory>
    requires edges { All (λ e. e < C.EDGES) edges.now }
    requires corners { All (λ k. k < C.CORNERS) corners.now }
    requires few { length edges.now + length corners.now ≤ 48 }
    ensures { IfOk result (λ sets. sets.items ≡ map (facet_set C.KIND D edges.now corners.now) (numbers C.FACETS)) }
{
    let mut sets = Vec::new(alloc);
    for facet in 0..C::FACETS as u8 {
        add_set(&mut sets, facet_points::<C, D>(facet, edges, corners))?;
    }
    Ok(sets)
}

pub(crate) fn add_set(sets: &mut Vec<u64>, set: u64) -> Result<(), Memory>
    ensures { OnOk result (sets.new.items ≡ sets.old.items ++ set ∷ []) }
{
    match sets.push(set) {
        Ok(()) => Ok(()),
        Err(_) => Err(Memory),
    }
}

// Whether the set lies within none of the others.
pub(crate) fn lies_off(set: u64, others: &[u64]) -> bool
    ensures { result ≡ is_off set others.now }
{
    others.iter().all(|other| set & *other != set)
}
