//! The entries of all labellings.

ghost use Rattle.std.specs.Prelude.{◌≡◌, ◌≤◌, ◌^◌, ◌++◌, ◌∷◌, [], IfOk, OnOk, map};
ghost use Rattle.iso_model.specs.declared.Kind.{Kind};
ghost use Rattle.table_file.specs.Holding.{lists_of};
ghost use Rattle.table_make.specs.HullEntries.{AreHullEntries};
ghost use Rattle.iso_model.specs.Dimensions.{IsDimension};

use crate::classes::{hull_place, no_places};
use case_patch::{patch, patch_moved};
use cell_lattice::{Cell, Kind};
use cube_moves::least_label;
use iso_base::Memory;
use std::alloc::Global;

// The number of labellings of the corners.
pub(crate) fn labels<C: Cell<D>, const D: usize>() -> u32
    ensures { result ≡ 2 ^ C.CORNERS }
{
    1 << C::CORNERS
}

// Adds an entry to the end of a list.
pub(crate) fn add_entry<const D: usize>(
    entries: &mut Vec<Vec<[u8; D]>>,
    entry: Vec<[u8; D]>,
) -> Result<(), Memory>
    requires { IsDimension D }
    ensures { OnOk result (lists_of entries.new.items ≡ lists_of entries.old.items ++ entry.entry.items ∷ []) }
{
    match entries.push(entry) {
        Ok(()) => Ok(()),
        Err(_) => Err(Memory),
    }
}

// The entries of the labels from `from` on and below `to`, each from a hull of its own.
fn entries_alone<C: Cell<D>, const D: usize>(
    alloc: Global,
    from: u32,
    to: u32,
) -> Result<Vec<Vec<[u8; D]>>, Memory>
    requires order { from ≤ to }
    requires labels { to ≤ 2 ^ C.CORNERS }
    ensures { IfOk result (λ entries. AreHullEntries C.KIND D from to (map (λ e. e.items) entries.items)) }
{
    let mut entries = Vec::new(alloc);
    for label in from..to {
        let entry = patch::<C, D>(alloc, label)?;
        add_entry(&mut entries, entry)?;
    }
    Ok(entries)
}

// The same for a cube, from one hull for each class of labellings.
fn entries_by_classes<C: Cell<D>, const D: usize>(
    alloc: Global,
    from: u32,
    to: u32,
) -> Result<Vec<Vec<[u8; D]>>, Memory>
    requires cube { C.KIND ≡ Kind.Cube }
    requires order { from ≤ to }
    requires labels { to ≤ 2 ^ C.CORNERS }
    ensures { IfOk result (λ entries. AreHullEntries C.KIND D from to (map (λ e. e.items) entries.items)) }
{
    let mut places = no_places(alloc, labels::<C, D>())?;
    let mut hulls = Vec::new(alloc);
    let mut entries = Vec::new(alloc);
    for label in from..to {
        let (class, by) = least_label::<D>(label);
        let place = hull_place::<C, D>(alloc, class, &mut places, &mut hulls)?;
        let entry = patch_moved::<C, D>(alloc, label, &by, &hulls[place])?;
        add_entry(&mut entries, entry)?;
    }
    Ok(entries)
}

// The entries of the labels from `from` on and below `to`.
pub(crate) fn hull_entries<C: Cell<D>, const D: usize>(
    alloc: Global,
    from: u32,
    to: u32,
) -> Result<Vec<Vec<[u8; D]>>, Memory>
    requires order { from ≤ to }
    requires labels { to ≤ 2 ^ C.CORNERS }
    ensures { IfOk result (λ entries. AreHullEntries C.KIND D from to (map (λ e. e.items) entries.items)) }
{
    match C::KIND {
        Kind::Cube => entries_by_classes::<C, D>(alloc, from, to),
        _ => entries_alone::<C, D>(alloc, from, to),
    }
}
