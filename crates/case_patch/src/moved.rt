//! Facets that a move of a cube carries from one labelling to another.

ghost use Rattle.std.specs.Prelude.{◌≡◌, ◌+◌, ◌^◌, ◌<◌, ◌≤◌, All, IfOk, length, map};
ghost use Rattle.iso_model.specs.declared.Kind.{Kind};
ghost use Rattle.iso_model.specs.Cells.{edge_count};
ghost use Rattle.iso_model.specs.Moves.{IsMove};
ghost use Rattle.case_patch.specs.MovedPoints.{place, carried_along, AreCarriedAlong, AreCarriedNumbers, carried_by};
ghost use Rattle.iso_model.specs.Dimensions.{IsDimension};

use crate::boundary::add_set;
use crate::points::{add_number, bipolar_edges, positive_corners};
use cell_lattice::Cell;
use cube_moves::{Move, move_corner, move_edge, move_label};
use iso_base::Memory;
use std::alloc::Global;

// The place of a number in a list, or the length of the list.
fn place_of(list: &[u8], number: u8) -> usize
    ensures value { result ≡ place list.now number }
    ensures within { result ≤ length list.now }
{
    for (at, member) in list.iter().enumerate() {
        if *member == number {
            return at;
        }
    }
    list.len()
}

// The number of the point to which a move carries a point. The points of both labellings are given by their edges and
// corners.
fn carried_number<const D: usize>(
    by: &Move<D>,
    edges: &[u8],
    corners: &[u8],
    to_edges: &[u8],
    to_corners: &[u8],
    point: usize,
) -> u8
    requires dimension { IsDimension D }
    requires is_move { IsMove D (record { axes = by.now.axes; flips = by.now.flips }) }
    requires edges { All (λ e. e < edge_count Kind.Cube D) edges.now }
    requires corners { All (λ k. k < 2 ^ D) corners.now }
    requires few { length to_edges.now + length to_corners.now ≤ 48 }
    requires point { point < length edges.now + length corners.now }
    ensures { result ≡ carried_along D by.now edges.now corners.now to_edges.now to_corners.now point }
{
    if point < edges.len() {
        place_of(to_edges, move_edge(by, edges[point])) as u8
    } else {
        let corner = move_corner(by, corners[point - edges.len()]);
        (to_edges.len() + place_of(to_corners, corner)) as u8
    }
}

// The same for all points, in their order.
fn numbers_among<const D: usize>(
    alloc: Global,
    by: &Move<D>,
    edges: &[u8],
    corners: &[u8],
    to_edges: &[u8],
    to_corners: &[u8],
) -> Result<Vec<u8>, Memory>
    requires dimension { IsDimension D }
    requires is_move { IsMove D (record { axes = by.now.axes; flips = by.now.flips }) }
    requires edges { All (λ e. e < edge_count Kind.Cube D) edges.now }
    requires corners { All (λ k. k < 2 ^ D) corners.now }
    requires room { length edges.now + length corners.now ≤ 48 }
    requires few { length to_edges.now + length to_corners.now ≤ 48 }
    ensures { IfOk result (λ xs. AreCarriedAlong D by.now edges.now corners.now to_edges.now to_corners.now xs.items) }
{
    let mut list = Vec::new(alloc);
    for point in 0..edges.len() + corners.len() {
        let number = carried_number(by, edges, corners, to_edges, to_corners, point);
        add_number(&mut list, number)?;
    }
    Ok(list)
}

// The numbers of the points to which a move carries the points of a labelling, in their order.
pub(crate) fn carried_numbers<C: Cell<D>, const D: usize>(
    alloc: Global,
    label: u32,
    by: &Move<D>,
) -> Result<Vec<u8>, Memory>
    requires kind { C.KIND ≡ Kind.Cube }
    requires label { label < 2 ^ C.CORNERS }
    requires is_move { IsMove D (record { axes = by.now.axes; flips = by.now.flips }) }
    ensures { IfOk result (λ list. AreCarriedNumbers D by.now.axes by.now.flips label list.items) }
{
    let edges = bipolar_edges::<C, D>(alloc, label)?;
    let corners = positive_corners::<C, D>(alloc, label)?;
    let other = move_label(by, label);
    let to_edges = bipolar_edges::<C, D>(alloc, other)?;
    let to_corners = positive_corners::<C, D>(alloc, other)?;
    numbers_among(alloc, by, &edges, &corners, &to_edges, &to_corners)
}

// The set of the points of which the numbers are members of a set.
fn carried_set(set: u64, list: &[u8]) -> u64
    requires members { All (λ i. i < 64) list.now }
    requires few { length list.now ≤ 48 }
    ensures { result ≡ carried_by list.now set }
{
    let mut carried = 0;
    for point in 0..list.len() {
        if (set >> list[point]) & 1 == 1 {
            carried |= 1 << point;
        }
    }
    carried
}

// The same of each of some sets.
pub(crate) fn carried_sets(alloc: Global, sets: &[u64], list: &[u8]) -> Result<Vec<u64>, Memory>
    requires members { All (λ i. i < 64) list.now }
    requires few { length list.now ≤ 48 }
    ensures { IfOk result (λ carried. carried.items ≡ map (carried_by list.now) sets.now) }
{
    let mut carried = Vec::new(alloc);
    for set in sets {
        add_set(&mut carried, carried_set(*set, list))?;
    }
    Ok(carried)
}
