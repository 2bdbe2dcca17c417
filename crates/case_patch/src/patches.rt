//! The entry of a labelling.

ghost use Rattle.std.specs.Prelude.{◌≡◌, ◌↔◌, ℕ, ◌^◌, ◌<◌, ◌≤◌, ◌++◌, ◌∷◌, [], List, All, Contains, IfOk, IfSome, IfNone, OnOk, length, map};
ghost use Rattle.iso_model.specs.declared.Kind.{Kind};
ghost use Rattle.iso_model.specs.Entries.{IsEntryOf, label_points};
ghost use Rattle.iso_model.specs.Moves.{IsMove};
ghost use Rattle.case_patch.specs.FacetLists.{AreAllFacets, AreFacetsOfMoved};
ghost use Rattle.case_patch.specs.Tuples.{Adds, IsNamed, IsOrdered, AddsOfSet, AddsOffSet, AreOffTuples, ArePulledTuples};
ghost use Rattle.iso_model.specs.Dimensions.{IsDimension};

use crate::boundary::{boundary_sets, lies_off};
use crate::facets::hull;
use crate::moved::{carried_numbers, carried_sets};
use crate::points::{bipolar_edges, positive_corners};
use crate::sides::orient;
use cell_lattice::{Cell, Kind};
use cube_moves::{Move, least_label};
use iso_base::Memory;
use pulling_tri::pull;
use std::alloc::Global;

// The edges of a simplex, where all its points are midpoints. The first points are the midpoints of these edges.
fn named<const D: usize>(simplex: &[u8; D], edges: &[u8]) -> Option<[u8; D]>
    ensures named { IfSome result (IsNamed edges.now simplex.now) }
    ensures other { IfNone result (¬ All (λ i. i < length edges.now) simplex.now) }
{
    let mut tuple = [0; D];
    for place in 0..D {
        let point = simplex[place] as usize;
        if point >= edges.len() {
            return None;
        }
        tuple[place] = edges[point];
    }
    Some(tuple)
}

fn add_tuple<const D: usize>(tuples: &mut Vec<[u8; D]>, tuple: [u8; D]) -> Result<(), Memory>
    requires { D ≤ 4 }
    ensures { OnOk result (tuples.new.items ≡ tuples.old.items ++ tuple.entry ∷ []) }
{
    match tuples.push(tuple) {
        Ok(()) => Ok(()),
        Err(_) => Err(Memory),
    }
}

// Adds a simplex by its edges, where all its points are midpoints.
fn add_named<const D: usize>(
    simplex: &[u8; D],
    edges: &[u8],
    tuples: &mut Vec<[u8; D]>,
) -> Result<(), Memory>
    requires { D ≤ 4 }
    ensures { OnOk result (Adds (IsNamed edges.now simplex.now) tuples.old.items tuples.new.items) }
{
    match named(simplex, edges) {
        Some(tuple) => add_tuple(tuples, tuple),
        None => Ok(()),
    }
}

// Adds the pulled simplices of a facet.
fn add_facet<const D: usize>(
    alloc: Global,
    facets: &[u64],
    facet: u64,
    edges: &[u8],
    tuples: &mut Vec<[u8; D]>,
) -> Result<(), Memory>
    requires { IsDimension D }
    ensures { OnOk result (AddsOfSet facets.now D edges.now facet tuples.old.items tuples.new.items) }
{
    let simplices = pull::<D>(alloc, facets, facet)?;
    for simplex in &simplices {
        add_named(simplex, edges, tuples)?;
    }
    Ok(())
}

// Adds those of a facet that lies within none of the sets on the cell's boundary.
fn add_if_off<const D: usize>(
    alloc: Global,
    facets: &[u64],
    boundary: &[u64],
    facet: u64,
    edges: &[u8],
    tuples: &mut Vec<[u8; D]>,
) -> Result<(), Memory>
    requires { IsDimension D }
    ensures { OnOk result (AddsOffSet facets.now boundary.now D edges.now facet tuples.old.items tuples.new.items) }
{
    if lies_off(facet, boundary) {
        return add_facet(alloc, facets, facet, edges, tuples);
    }
    Ok(())
}

// Those of all facets off the cell's boundary.
fn off_tuples<const D: usize>(
    alloc: Global,
    facets: &[u64],
    boundary: &[u64],
    edges: &[u8],
) -> Result<Vec<[u8; D]>, Memory>
    requires { IsDimension D }
    ensures { IfOk result (λ tuples. AreOffTuples facets.now boundary.now D edges.now tuples.items) }
{
    let mut tuples = Vec::new(alloc);
    for facet in facets {
        add_if_off(alloc, facets, boundary, *facet, edges, &mut tuples)?;
    }
    Ok(tuples)
}

// The pulled simplices of all facets of a labelling's points that lie off the cell's boundary, each by its edges. The
// facets are given as sets of points, in any order.
fn pulled_tuples<C: Cell<D>, const D: usize>(
    alloc: Global,
    label: u32,
    facets: &[u64],
) -> Result<Vec<[u8; D]>, Memory>
    requires label { label < 2 ^ C.CORNERS }
    requires facets { AreAllFacets D (label_points C.KIND D label) facets.now }
    ensures { IfOk result (λ tuples. ArePulledTuples C.KIND D label tuples.items) }
{
    let edges = bipolar_edges::<C, D>(alloc, label)?;
    let corners = positive_corners::<C, D>(alloc, label)?;
    let boundary = boundary_sets::<C, D>(alloc, &edges, &corners)?;
    off_tuples(alloc, facets, &boundary, &edges)
}

// Puts tuples in ascending order, each once.
fn put_in_order<const D: usize>(tuples: &mut Vec<[u8; D]>)
    requires dimension { IsDimension D }
    requires wide { (tuple : List ℕ) → Contains tuples.old.items tuple → length tuple ≡ D }
    ensures { IsOrdered tuples.old.items tuples.new.items }
{
    tuples.sort_unstable();
    tuples.dedup();
}

// The entry of a labelling, where the facets of its points are known.
fn entry_with<C: Cell<D>, const D: usize>(
    alloc: Global,
    label: u32,
    facets: &[u64],
) -> Result<Vec<[u8; D]>, Memory>
    requires label { label < 2 ^ C.CORNERS }
    requires facets { AreAllFacets D (label_points C.KIND D label) facets.now }
    ensures { IfOk result (λ entry. IsEntryOf C.KIND D label entry.items) }
{
    let mut tuples = pulled_tuples::<C, D>(alloc, label, facets)?;
    put_in_order(&mut tuples);
    orient::<C, D>(label, &mut tuples);
    Ok(tuples)
}

/// The entry of a labelling of a cube, from the facets of the labelling to which a move carries it: `class` has the answer
/// of `hull` for the label to which `by` carries `label`. The facets are carried back along the move, and then pulled by
/// the labelling's own numbers of edges. The only error is want of memory.
pub fn patch_moved<C: Cell<D>, const D: usize>(
    alloc: Global,
    label: u32,
    by: &Move<D>,
    class: &[u64],
) -> Result<Vec<[u8; D]>, Memory>
    requires kind { C.KIND ≡ Kind.Cube }
    requires label { label < 2 ^ C.CORNERS }
    requires is_move { IsMove D (record { axes = by.now.axes; flips = by.now.flips }) }
    requires class { AreFacetsOfMoved C.KIND D by.now.axes by.now.flips label class.now }
    ensures { IfOk result (λ entry. IsEntryOf C.KIND D label entry.items) }
{
    let numbers = carried_numbers::<C, D>(alloc, label, by)?;
    let facets = carried_sets(alloc, class, &numbers)?;
    entry_with::<C, D>(alloc, label, &facets)
}

// The entry of a labelling, from the facets of its own points.
fn patch_alone<C: Cell<D>, const D: usize>(
    alloc: Global,
    label: u32,
) -> Result<Vec<[u8; D]>, Memory>
    requires { label < 2 ^ C.CORNERS }
    ensures { IfOk result (λ entry. IsEntryOf C.KIND D label entry.items) }
{
    let facets = hull::<C, D>(alloc, label)?;
    entry_with::<C, D>(alloc, label, &facets)
}

// The entry of a labelling of a cube, from the facets of the least labelling to which a move carries it.
fn patch_by_class<C: Cell<D>, const D: usize>(
    alloc: Global,
    label: u32,
) -> Result<Vec<[u8; D]>, Memory>
    requires kind { C.KIND ≡ Kind.Cube }
    requires label { label < 2 ^ C.CORNERS }
    ensures { IfOk result (λ entry. IsEntryOf C.KIND D label entry.items) }
{
    let (class, by) = least_label::<D>(label);
    let facets = hull::<C, D>(alloc, class)?;
    patch_moved::<C, D>(alloc, label, &by, &facets)
}

/// The entry of a labelling: the simplices of the isosurface patch, each as the tuple of the edges on which its vertices
/// stand. Bit k of `label` is set where corner k is positive.
///
/// The points of a labelling are the midpoints of its edges with ends of different signs and the positive corners. The
/// facets of their convex hull that do not lie in a facet of the cell are triangulated by pulling, each from its points in
/// ascending order. The tuples are first ascending and stand in ascending order, each once; then the last two edges of a
/// tuple are exchanged where its turn, towards the positive end of its first edge, is negative. Where all corners have
/// one sign there is no simplex. After Bhaniramka, Wenger and Crawfis, "Isosurface construction in any dimension using
/// convex hulls" (2004). The only error is want of memory.
pub fn patch<C: Cell<D>, const D: usize>(alloc: Global, label: u32) -> Result<Vec<[u8; D]>, Memory>
    requires { label < 2 ^ C.CORNERS }
    ensures { IfOk result (λ entry. IsEntryOf C.KIND D label entry.items) }
{
    match C::KIND {
        Kind::Cube => patch_by_class::<C, D>(alloc, label),
        _ => patch_alone::<C, D>(alloc, label),
    }
}
