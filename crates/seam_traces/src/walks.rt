//! Walks through the tallies of a label, along those that are kept.

ghost use Rattle.std.specs.Prelude.{◌≡◌, ◌↔◌, ℕ, ◌<◌, ◌≤◌, List, length, All, IfOk, IsTrue};
ghost use Rattle.iso_model.specs.Turns.{signed};
ghost use Rattle.seam_traces.specs.Traces.{places};
ghost use Rattle.seam_traces.specs.TallyLists.{is_within, placed, tallies_in, tally_across, tallies_across};
ghost use Rattle.lists.specs.Bits.{set_number};

use crate::places::{places_of, push};
use face_tallies::FaceTally;
use iso_base::Memory;
use std::alloc::Global;

/// Whether a sum is that of a face on the other side of a seam: the negative where the parity is the same.
fn is_sum_across(kept: i64, sum: i64, same: bool) -> bool
    ensures { IsTrue result ↔ (kept ≡ signed same sum) }
{
    if same {
        kept.checked_add(sum) == Some(0)
    } else {
        kept == sum
    }
}

/// Whether a kept tally is that of a face on the other side of a seam; `places` are those of the face's edges.
fn is_across(kept: &FaceTally, places: u32, tally: &FaceTally, same: bool) -> bool
    ensures { IsTrue result ↔ (kept.now ≡ tally_across same (record tally.now { edges = places })) }
{
    kept.edges == places && kept.count == tally.count && is_sum_across(kept.sum, tally.sum, same)
}

/// Whether the edges of a face all lie in a set.
fn lies_in(edge_set: u32, tally: &FaceTally) -> bool
    ensures { (edges : List ℕ) → edge_set ≡ set_number edges → result ≡ is_within edges tally.now.edges }
{
    tally.edges & edge_set == tally.edges
}

/// A tally, with the places of its edges in a list in place of the edges.
fn placed(edges: &[u8], tally: &FaceTally) -> FaceTally
    requires few { length edges.now ≤ 32 }
    requires numbers { All (λ e. e < 32) edges.now }
    ensures { result ≡ placed edges.now tally.now }
{
    FaceTally {
        edges: places_of(edges, tally.edges),
        ..*tally
    }
}

/// The tallies of the faces whose edges are all in a list, each with the places of its edges.
pub(crate) fn tallies_in(
    alloc: Global,
    edges: &[u8],
    edge_set: u32,
    tallies: &[FaceTally],
) -> Result<Vec<FaceTally>, Memory>
    requires few { length edges.now ≤ 32 }
    requires numbers { All (λ e. e < 32) edges.now }
    requires set { edge_set ≡ set_number edges.now }
    ensures { IfOk result (λ inside. inside.items ≡ tallies_in edges.now tallies.now) }
{
    let mut inside = Vec::new(alloc);
    for tally in tallies {
        if lies_in(edge_set, tally) {
            push(&mut inside, placed(edges, tally))?;
        }
    }
    Ok(inside)
}

/// Whether kept tallies are those of the faces in a list of edges on the other side of a seam.
pub(crate) fn are_across(
    kept: &[FaceTally],
    edges: &[u8],
    edge_set: u32,
    tallies: &[FaceTally],
    same: bool,
) -> bool
    requires few { length edges.now ≤ 32 }
    requires numbers { All (λ e. e < 32) edges.now }
    requires set { edge_set ≡ set_number edges.now }
    ensures { IsTrue result ↔ (kept.now ≡ tallies_across same (tallies_in edges.now tallies.now)) }
{
    let mut next = 0;
    for tally in tallies {
        if lies_in(edge_set, tally) {
            let places = places_of(edges, tally.edges);
            if next == kept.len() || !is_across(&kept[next], places, tally, same) {
                return false;
            }
            next += 1;
        }
    }
    next == kept.len()
}
