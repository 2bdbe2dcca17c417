//! The points of a labelling.

ghost use Rattle.std.specs.Prelude.{◌≡◌, ◌*◌, ◌<◌, ◌≤◌, ◌++◌, ◌∷◌, [], pos, ◌+ℤ◌, All, IfOk, OnOk, map};
ghost use Rattle.iso_model.specs.Cells.{corner_point, edge_midpoint};
ghost use Rattle.iso_model.specs.Bipolar.{is_bipolar_in};
ghost use Rattle.iso_model.specs.Entries.{label_edges, label_corners};
ghost use Rattle.cell_lattice.specs.Coordinates.{IsCoordinate};
ghost use Rattle.case_patch.specs.PointLists.{points_of as points_at};

use cell_lattice::Cell;
use edge_sets::has_member;
use iso_base::Memory;
use std::alloc::Global;

// Whether one end of the edge is positive and the other is not.
fn is_bipolar<C: Cell<D>, const D: usize>(label: u32, edge: u8) -> bool
    requires { edge < C.EDGES }
    ensures { result ≡ is_bipolar_in C.KIND D label edge }
{
    let (first, second) = C::edge_ends(edge);
    has_member(label, first) != has_member(label, second)
}

// The edges of which one end is positive and the other is not, ascending.
pub(crate) fn bipolar_edges<C: Cell<D>, const D: usize>(
    alloc: Global,
    label: u32,
) -> Result<Vec<u8>, Memory>
    ensures { IfOk result (λ edges. edges.items ≡ label_edges C.KIND D label) }
{
    let mut edges = Vec::new(alloc);
    for edge in 0..C::EDGES as u8 {
        if is_bipolar::<C, D>(label, edge) {
            add_number(&mut edges, edge)?;
        }
    }
    Ok(edges)
}

// The positive corners, ascending.
pub(crate) fn positive_corners<C: Cell<D>, const D: usize>(
    alloc: Global,
    label: u32,
) -> Result<Vec<u8>, Memory>
    ensures { IfOk result (λ corners. corners.items ≡ label_corners C.KIND D label) }
{
    let mut corners = Vec::new(alloc);
    for corner in 0..C::CORNERS as u8 {
        if has_member(label, corner) {
            add_number(&mut corners, corner)?;
        }
    }
    Ok(corners)
}

pub(crate) fn add_number(numbers: &mut Vec<u8>, number: u8) -> Result<(), Memory>
    ensures { OnOk result (numbers.new.items ≡ numbers.old.items ++ number ∷ []) }
{
    match numbers.push(number) {
        Ok(()) => Ok(()),
        Err(_) => Err(Memory),
    }
}

fn doubled(coordinate: i32) -> i32
    requires { IsCoordinate coordinate }
    ensures { result ≡ coordinate +ℤ coordinate }
{
    coordinate + coordinate
}

// Twice the point of a corner, which is its point in quarter-units.
fn twice_corner<C: Cell<D>, const D: usize>(corner: u8) -> [i32; D]
    requires { corner < C.CORNERS }
    ensures { result ≡ map (λ x. pos (2 * x)) (corner_point C.KIND D corner) }
{
    let point = C::corner_at(corner);
    let mut twice = [0; D];
    for axis in 0..D {
        twice[axis] = doubled(point[axis]);
    }
    twice
}

// The midpoints of edges.
fn midpoints_of<C: Cell<D>, const D: usize>(
    alloc: Global,
    edges: &[u8],
) -> Result<Vec<[i32; D]>, Memory>
    requires { All (λ e. e < C.EDGES) edges.now }
    ensures { IfOk result (λ points. points.items ≡ map (λ e. map pos (edge_midpoint C.KIND D e)) edges.now) }
{
    let mut points = Vec::new(alloc);
    for edge in edges {
        add_point(&mut points, C::edge_mid(*edge))?;
    }
    Ok(points)
}

// The midpoints of edges, and then twice the points of corners.
pub(crate) fn points_of<C: Cell<D>, const D: usize>(
    alloc: Global,
    edges: &[u8],
    corners: &[u8],
) -> Result<Vec<[i32; D]>, Memory>
    requires edges { All (λ e. e < C.EDGES) edges.now }
    requires corners { All (λ k. k < C.CORNERS) corners.now }
    ensures { IfOk result (λ points. points.items ≡ points_at C.KIND D edges.now corners.now) }
{
    let mut points = midpoints_of::<C, D>(alloc, edges)?;
    for corner in corners {
        add_point(&mut points, twice_corner::<C, D>(*corner))?;
    }
    Ok(points)
}

fn add_point<const D: usize>(points: &mut Vec<[i32; D]>, point: [i32; D]) -> Result<(), Memory>
    requires { D ≤ 4 }
    ensures { OnOk result (points.new.items ≡ points.old.items ++ point.entry ∷ []) }
{
    match points.push(point) {
        Ok(()) => Ok(()),
        Err(_) => Err(Memory),
    }
}
