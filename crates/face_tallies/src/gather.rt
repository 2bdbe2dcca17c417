//! The tallies of tuples.

ghost use Rattle.std.specs.Prelude.{◌≡◌, ℕ, ◌<◌, ◌≤◌, ◌^◌, ◌+◌, ◌*◌, [], ◌∷◌, length, All, OnOk};
ghost use Rattle.std.specs.List.Sorted.{IsNonDecreasingBy, IsPermutation};
ghost use Rattle.face_tallies.specs.declared.faces.FaceTally.{FaceTally};
ghost use Rattle.face_tallies.specs.Tallies.{AreTallies};
ghost use Rattle.face_tallies.specs.Parts.{IsWeighed, AddsParts, whole_count, parts_of, all_parts};

use crate::faces::FaceTally;
use crate::parts::{merge, put};
use crate::signs::{distinct_set, face_at, order_parity};
use iso_base::Memory;
use std::alloc::Global;

/// How many slots there are: one for each set of at most three edges, and some more.
const SLOTS: usize = 32_768;

/// Room for the work of `tally`, which is made at its first call and used again by the later ones.
#[derive(Drop)]
pub struct TallyRoom {
    // Where the part of a face may stand, by the face's slot. What stands here from earlier calls is of no use and does
    // no harm, since a part is asked for its edges.
    places: Vec<u16>,
    parts: Vec<FaceTally>,
}

impl TallyRoom {
    /// No room yet.
    pub fn new(alloc: Global) -> TallyRoom {
        TallyRoom {
            places: Vec::new(alloc),
            parts: Vec::new(alloc),
        }
    }
}

/// Gathers the faces of tuples into tallies, in place of what they held: each face that some tuple has, once, in
/// ascending order of the sets' numbers. The edges of tuples are numbers below 32, and there are at most 2^28 tuples.
///
/// Takes time in proportion to the number of tuples, and sorts only the different faces. Where memory is refused, the
/// tallies are of no use.
pub fn tally<const D: usize>(
    tuples: &[[u8; D]],
    room: &mut TallyRoom,
    tallies: &mut Vec<FaceTally>,
) -> Result<(), Memory>
    requires dimension { D ≤ 4 }
    requires edges { All (λ w. All (λ e. e < 32) w) tuples.now }
    requires few { length tuples.now ≤ 2 ^ 28 }
    ensures { OnOk result (AreTallies D tuples.now tallies.new.items) }
{
    make_slots(&mut room.places)?;
    gather(tuples, &mut room.places, &mut room.parts)?;
    sort(&mut room.parts);
    merge(&room.parts, tallies)?;
    Ok(())
}

fn make_slots(places: &mut Vec<u16>) -> Result<(), Memory> {
    if places.len() == SLOTS {
        return Ok(());
    }
    match places.resize(SLOTS, 0) {
        Ok(()) => Ok(()),
        Err(_) => Err(Memory),
    }
}

// Gathers the faces of tuples, in place of what was held.
fn gather<const D: usize>(
    tuples: &[[u8; D]],
    places: &mut [u16],
    parts: &mut Vec<FaceTally>,
) -> Result<(), Memory>
    requires dimension { D ≤ 4 }
    requires edges { All (λ w. All (λ e. e < 32) w) tuples.now }
    requires few { length tuples.now ≤ 2 ^ 28 }
    ensures wide { OnOk result (All (λ w. length w ≡ D) tuples.now) }
    ensures few { OnOk result (whole_count parts.new.items ≤ D * length tuples.now) }
    ensures adds { OnOk result (AddsParts (all_parts tuples.now) [] parts.new.items) }
{
    parts.clear();
    for tuple in tuples {
        add_faces(tuple, places, parts)?;
    }
    Ok(())
}

// Puts parts in ascending order of their sets.
fn sort(parts: &mut Vec<FaceTally>)
    ensures sorted { IsNonDecreasingBy (λ (t : FaceTally). t.edges) parts.new.items }
    ensures reordered { IsPermutation parts.old.items parts.new.items }
{
    parts.sort_unstable_by_key(|part| part.edges);
}

// Adds the faces of a tuple.
fn add_faces<const D: usize>(
    tuple: &[u8; D],
    places: &mut [u16],
    parts: &mut Vec<FaceTally>,
) -> Result<(), Memory>
    requires edges { All (λ e. e < 32) tuple.now }
    requires few { whole_count parts.old.items + D ≤ 2 ^ 62 }
    requires weighed { All IsWeighed parts.old.items }
    ensures wide { length tuple.now ≡ D }
    ensures few { OnOk result (whole_count parts.new.items ≤ whole_count parts.old.items + D) }
    ensures adds { OnOk result (AddsParts (parts_of tuple.now) parts.old.items parts.new.items) }
{
    let Some(set) = distinct_set(tuple) else {
        return Ok(());
    };
    let parity = order_parity(tuple);
    for place in 0..D {
        let part = face_at(tuple, set, parity, place);
        add_part(places, parts, part)?;
    }
    Ok(())
}

// Adds a part to the one in its slot, where that has the same edges, and else as a part of its own.
fn add_part(places: &mut [u16], parts: &mut Vec<FaceTally>, part: FaceTally) -> Result<(), Memory>
    requires few { whole_count parts.old.items + part.count ≤ 2 ^ 62 }
    requires weighed { All IsWeighed parts.old.items }
    requires one_weighed { IsWeighed part }
    ensures { OnOk result (AddsParts (part ∷ []) parts.old.items parts.new.items) }
{
    let end = parts.len();
    let slot = slot_of(part.edges);
    if slot >= places.len() {
        put(parts, end, part)?;
        return Ok(());
    }
    put(parts, places[slot] as usize, part)?;
    if parts.len() > end {
        places[slot] = end.min(65_535) as u16;
    }
    Ok(())
}

// A number below 32,768, which sets of one, two and three edges have for themselves: of the least, the next and the
// greatest edge.
fn slot_of(edges: u32) -> usize {
    let others = edges & edges.wrapping_sub(1);
    let least = edges.trailing_zeros() % 32;
    let next = others.trailing_zeros() % 32;
    let greatest = edges.leading_zeros() % 32;
    least as usize + 32 * next as usize + 1024 * greatest as usize
}
