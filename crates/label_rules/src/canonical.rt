//! What the rules need of the canonical cell.

ghost use Rattle.std.specs.Prelude.{◌≡◌, ℕ, ◌<◌, ◌≤◌, List, map, pos, All};
ghost use Rattle.polynomials.specs.Small.{AreSmall};
ghost use Rattle.iso_model.specs.Cells.{HasDimension, corner_count, edge_count, corner_point, edge_ends, edge_midpoint};
ghost use Rattle.iso_model.specs.Tables.{IsTuple};
ghost use Rattle.edge_sets.specs.Sets.{Suits, SuitsFacets};

use crate::cell_lists::{corners_of, ends_of, facets_of, midpoints_of};
use cell_lattice::{Cell, Kind};
use edge_sets::bipolar_set;
use std::marker::Model;

/// The corners, edges and facets of the canonical cell of a kind and of dimension `D`, found once for all labels.
#[derive(Drop)]
pub struct Figures<const D: usize> {
    kind: Kind,
    edges: usize,
    facets: usize,
    // behind the cell's own number of them, the lists go on with zeros
    edge_ends: [(u8, u8); 32],
    midpoints: [[i32; D]; 32],
    corners: [[i64; D]; 16],
    facet_sets: [u32; 8],
}

impl<const D: usize> Model for Figures<D> {
    ghost use Rattle.iso_model.specs.declared.Kind.{Kind as KindValue};
    ghost use Rattle.label_rules.specs.Figures.{AreFigures};

    ghost Value = { KindValue };

    ghost view = { λ f. f.kind };

    ghost invariant = { λ f. AreFigures f.kind D f.edges f.facets f.edge_ends f.midpoints f.corners f.facet_sets };
}

impl<const D: usize> Figures<D> {
    /// The figures of a cell.
    pub fn of<C: Cell<D>>() -> Figures<D>
        ensures { result ≡ C.KIND }
    {
        Figures {
            kind: C::KIND,
            edges: C::EDGES,
            facets: C::FACETS,
            edge_ends: ends_of::<C, D>(),
            midpoints: midpoints_of::<C, D>(),
            corners: corners_of::<C, D>(),
            facet_sets: facets_of::<C, D>(),
        }
    }

    /// The kind of the cell.
    pub fn kind(&self) -> Kind
        ensures kind { result ≡ self.now }
        ensures cell { HasDimension self.now D }
    {
        self.kind
    }

    /// The set of the edges of each facet, in the order of the facets.
    pub fn facets(&self) -> &[u32]
        ensures { (ws : List (List ℕ)) → All (IsTuple self.now D) ws → SuitsFacets self.now D result.now ws }
    {
        &self.facet_sets[..self.facets]
    }

    /// The set of the edges that are bipolar in a labelling of the corners.
    pub fn bipolar(&self, label: u32) -> u32
        ensures { (ws : List (List ℕ)) → All (IsTuple self.now D) ws → Suits self.now D label result ws }
    {
        bipolar_set(label, &self.edge_ends[..self.edges])
    }

    /// The two ends of an edge, the smaller first.
    pub(crate) fn ends(&self, edge: u8) -> (u8, u8)
        requires { edge < edge_count self.now D }
        ensures ends { result ≡ edge_ends self.now D edge }
        ensures first { result.0 < corner_count self.now D }
        ensures second { result.1 < corner_count self.now D }
    {
        self.edge_ends[edge as usize]
    }

    /// The midpoint of an edge, in quarter-units.
    pub(crate) fn midpoint(&self, edge: u8) -> &[i32; D]
        requires { edge < edge_count self.now D }
        ensures midpoint { result.now ≡ map pos (edge_midpoint self.now D edge) }
        ensures small { AreSmall 32 result.now }
    {
        let midpoints = &self.midpoints;
        &midpoints[edge as usize]
    }

    /// A corner, in half-units.
    pub(crate) fn corner(&self, corner: u8) -> &[i64; D]
        requires { corner < corner_count self.now D }
        ensures corner { result.now ≡ map pos (corner_point self.now D corner) }
        ensures small { AreSmall 32 result.now }
    {
        let corners = &self.corners;
        &corners[corner as usize]
    }
}
