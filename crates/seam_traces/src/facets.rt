//! A facet of a cell, and what is kept of the labels that were taken.

ghost use Rattle.std.specs.Prelude.{◌≡◌, ◌↔◌, ℕ, ◌^◌, ◌<◌, ◌≤◌, length, slice_index_or, All, IfOk, OnOk, IsTrue};
ghost use Rattle.seam_traces.specs.Kept.{seen_at, IsSound, TakesLabel, IsAgainstAt, IsFacetOf, AreFacetsOf, EachTakesLabel};
ghost use Rattle.seam_traces.specs.Kept.{joined, TakesPattern, TakesLater, EachTakesLater, HasSamePatterns, HaveSamePatterns};

use crate::places::{members_of, places_of, push};
use crate::walks::{are_across, tallies_in};
use cell_lattice::Cell;
use face_tallies::FaceTally;
use iso_base::Memory;
use std::alloc::Global;
use std::mem::swap;

/// How the labels with a pattern on a facet compare.
#[derive(Clone, Copy, Debug, PartialEq, Eq)]
pub enum Seen {
    /// There was no label with the pattern.
    Never,
    /// All of them have the trace of the first one.
    Alike { first: u32 },
    /// The first of them, and the first that has another trace.
    Unlike { first: u32, other: u32 },
}

/// A facet: its corners and its edges in ascending order, the set of its edges, and for each pattern of signs on its
/// corners how the labels with it compare, and the trace of the first of them.
#[derive(Drop)]
pub struct Facet {
    corners: Vec<u8>,
    edges: Vec<u8>,
    edge_set: u32,
    seen: Vec<Seen>,
    traces: Vec<Vec<FaceTally>>,
}

impl Facet {
    /// Takes the next label, by the tallies of its tuples.
    pub(crate) fn add(
        &mut self,
        alloc: Global,
        label: u32,
        tallies: &[FaceTally],
    ) -> Result<(), Memory>
        requires { IsSound self.old }
        ensures { OnOk result (TakesLabel label tallies.now self.old self.new) }
    {
        let pattern = places_of(&self.corners, label) as usize;
        match self.seen[pattern] {
            Seen::Never => {
                self.traces[pattern] = tallies_in(alloc, &self.edges, self.edge_set, tallies)?;
                self.seen[pattern] = Seen::Alike { first: label };
            }
            Seen::Alike { first } => {
                if !are_across(
                    &self.traces[pattern],
                    &self.edges,
                    self.edge_set,
                    tallies,
                    false,
                ) {
                    self.seen[pattern] = Seen::Unlike {
                        first,
                        other: label,
                    };
                }
            }
            Seen::Unlike { .. } => {}
        }
        Ok(())
    }

    /// Takes what the same facet kept of later labels.
    fn add_later(&mut self, later: &mut Facet)
        requires { HasSamePatterns self.old later.old }
        ensures { TakesLater self.old later.old self.new }
    {
        for pattern in 0..self.seen.len() {
            self.add_pattern(later, pattern);
        }
    }

    /// Takes what the same facet kept of later labels with a pattern.
    fn add_pattern(&mut self, later: &mut Facet, pattern: usize)
        requires patterns { HasSamePatterns self.old later.old }
        requires inside { pattern < length self.old.seen.items }
        ensures { TakesPattern pattern self.old later.old self.new later.new }
    {
        let earlier = self.seen[pattern];
        let same = are_same(&self.traces[pattern], &later.traces[pattern]);
        self.seen[pattern] = joined(earlier, later.seen[pattern], same);
        if let Seen::Never = earlier {
            swap(&mut self.traces[pattern], &mut later.traces[pattern]);
        }
    }

    /// The least label with the pattern of a label on another facet whose trace on this facet does not correspond to its
    /// own trace there.
    pub(crate) fn least_against(
        &self,
        other: &Facet,
        same: bool,
        label: u32,
        tallies: &[FaceTally],
    ) -> Option<u32>
        requires one { IsSound self.now }
        requires two { IsSound other.now }
        requires meet { length self.now.corners.items ≡ length other.now.corners.items }
        ensures { IsAgainstAt same label tallies.now other.now self.now result }
    {
        let pattern = places_of(&other.corners, label) as usize;
        let (first, next) = match self.seen[pattern] {
            Seen::Never => return None,
            Seen::Alike { first } => (first, None),
            Seen::Unlike { first, other } => (first, Some(other)),
        };
        if are_across(
            &self.traces[pattern],
            &other.edges,
            other.edge_set,
            tallies,
            same,
        ) {
            next
        } else {
            Some(first)
        }
    }
}

/// How the labels with a pattern compare, where some compare as `earlier` says and later ones as `later`; `same` says
/// whether the first labels of both have one trace.
fn joined(earlier: Seen, later: Seen, same: bool) -> Seen
    ensures { result ≡ joined earlier later same }
{
    match (earlier, later) {
        (Seen::Never, _) => later,
        (Seen::Alike { first }, Seen::Alike { first: next }) if !same => {
            Seen::Unlike { first, other: next }
        }
        (Seen::Alike { first }, Seen::Unlike { first: next, other }) => Seen::Unlike {
            first,
            other: if same { other } else { next },
        },
        _ => earlier,
    }
}

/// Whether two lists of tallies are the same.
fn are_same(tallies: &[FaceTally], others: &[FaceTally]) -> bool
    ensures { IsTrue result ↔ (tallies.now ≡ others.now) }
{
    tallies == others
}

/// What is seen of so many patterns before the first label.
fn unseen(alloc: Global, count: usize) -> Result<Vec<Seen>, Memory>
    ensures len { IfOk result (λ seen. length seen.items ≡ count) }
    ensures never { IfOk result (λ seen. (p : ℕ) → slice_index_or seen.items p Seen.Never ≡ Seen.Never) }
{
    let mut seen = Vec::new(alloc);
    for _ in 0..count {
        push(&mut seen, Seen::Never)?;
    }
    Ok(seen)
}

/// So many empty traces.
fn empty_traces(alloc: Global, count: usize) -> Result<Vec<Vec<FaceTally>>, Memory>
    ensures { IfOk result (λ traces. length traces.items ≡ count) }
{
    let mut traces = Vec::new(alloc);
    for _ in 0..count {
        push(&mut traces, Vec::new(alloc))?;
    }
    Ok(traces)
}

/// A facet of the cell, of which no label was taken.
pub(crate) fn facet_of<C: Cell<D>, const D: usize>(
    alloc: Global,
    facet: u8,
) -> Result<Facet, Memory>
    requires { facet < C.FACETS }
    ensures is_facet { IfOk result (λ made. IsFacetOf C.KIND D facet made) }
    ensures never { IfOk result (λ made. (p : ℕ) → seen_at made p ≡ Seen.Never) }
{
    let corners = members_of(alloc, C::facet_mask(facet), C::CORNERS)?;
    let edge_set = C::facet_edges(facet);
    let edges = members_of(alloc, edge_set, C::EDGES)?;
    let patterns = 1 << corners.len();
    Ok(Facet {
        corners,
        edges,
        edge_set,
        seen: unseen(alloc, patterns)?,
        traces: empty_traces(alloc, patterns)?,
    })
}

/// The facets of the cell, of which no label was taken.
pub(crate) fn facets_of<C: Cell<D>, const D: usize>(alloc: Global) -> Result<Vec<Facet>, Memory>
    ensures are_facets { IfOk result (λ facets. AreFacetsOf C.KIND D facets.items) }
    ensures never { IfOk result (λ facets. All (λ (x : Facet). (p : ℕ) → seen_at x p ≡ Seen.Never) facets.items) }
{
    let mut facets = Vec::new(alloc);
    for facet in 0..C::FACETS {
        push(&mut facets, facet_of::<C, D>(alloc, facet as u8)?)?;
    }
    Ok(facets)
}

/// Each facet takes the next label, by the tallies of its tuples.
pub(crate) fn add_label(
    alloc: Global,
    facets: &mut [Facet],
    label: u32,
    tallies: &[FaceTally],
) -> Result<(), Memory>
    requires { All IsSound facets.old }
    ensures { OnOk result (EachTakesLabel label tallies.now facets.old facets.new) }
{
    for facet in facets.iter_mut() {
        facet.add(alloc, label, tallies)?;
    }
    Ok(())
}

/// Each facet takes what the same one kept of later labels.
pub(crate) fn add_later(facets: &mut [Facet], later: &mut [Facet])
    requires { HaveSamePatterns facets.old later.old }
    ensures { EachTakesLater facets.old later.old facets.new }
{
    for number in 0..facets.len() {
        facets[number].add_later(&mut later[number]);
    }
}
