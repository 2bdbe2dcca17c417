//! The hulls of a cube's labellings, each of the least one of its class.

ghost use Rattle.std.specs.Prelude.{◌≡◌, ◌^◌, ◌<◌, ◌++◌, ◌∷◌, [], All, None, IfOk, OnOk, length, map};
ghost use Rattle.table_file.specs.Holding.{lists_of};
ghost use Rattle.table_make.specs.ClassHulls.{KnowsHulls, IsHullAt};

use case_patch::hull;
use cell_lattice::Cell;
use iso_base::Memory;
use std::alloc::Global;

// A place for each label, where none is known.
pub(crate) fn no_places(alloc: Global, labels: u32) -> Result<Vec<Option<usize>>, Memory>
    ensures { IfOk result (λ places. (length places.items ≡ labels) × All (λ place. place ≡ None) places.items) }
{
    let mut places = Vec::new(alloc);
    for _label in 0..labels {
        add_none(&mut places)?;
    }
    Ok(places)
}

fn add_none(places: &mut Vec<Option<usize>>) -> Result<(), Memory>
    ensures { OnOk result (places.new.items ≡ places.old.items ++ None ∷ []) }
{
    match places.push(None) {
        Ok(()) => Ok(()),
        Err(_) => Err(Memory),
    }
}

fn add_hull(hulls: &mut Vec<Vec<u64>>, facets: Vec<u64>) -> Result<(), Memory>
    ensures { OnOk result (lists_of hulls.new.items ≡ lists_of hulls.old.items ++ facets.items ∷ []) }
{
    match hulls.push(facets) {
        Ok(()) => Ok(()),
        Err(_) => Err(Memory),
    }
}

// The place of the hull of a label, which is found where it is not known.
pub(crate) fn hull_place<C: Cell<D>, const D: usize>(
    alloc: Global,
    label: u32,
    places: &mut Vec<Option<usize>>,
    hulls: &mut Vec<Vec<u64>>,
) -> Result<usize, Memory>
    requires label { label < 2 ^ C.CORNERS }
    requires inside { label < length places.old.items }
    requires known { KnowsHulls C.KIND D places.old.items (map (λ h. h.items) hulls.old.items) }
    ensures known { OnOk result (KnowsHulls C.KIND D places.new.items (map (λ h. h.items) hulls.new.items)) }
    ensures room { length places.new.items ≡ length places.old.items }
    ensures within { IfOk result (λ place. place < length hulls.new.items) }
    ensures found { IfOk result (λ place. IsHullAt C.KIND D label (map (λ h. h.items) hulls.new.items) place) }
{
    if let Some(place) = places[label as usize] {
        return Ok(place);
    }
    let facets = hull::<C, D>(alloc, label)?;
    let place = hulls.len();
    add_hull(hulls, facets)?;
    places[label as usize] = Some(place);
    Ok(place)
}
