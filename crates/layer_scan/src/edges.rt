//! The edges of a grid, numbered as a scan meets them.

ghost use Rattle.std.specs.Prelude.{◌≡◌, ◌≢◌, ◌*◌, ◌+◌, ◌<◌, ◌≤◌, ◌^◌, ◌-◌, ℕ, IfOk, length};
ghost use Rattle.iso_model.specs.Cells.{HasDimension};
ghost use Rattle.iso_model.specs.Values.{Volume};
ghost use Rattle.iso_model.specs.declared.Kind.TheVariants.{Pyramid};
ghost use Rattle.grid_rows.specs.RowNumbers.{bordered_rows, cube_rows, edge_rows, sample_rows};
ghost use Rattle.layer_scan.specs.Centres.{AreSmall};
ghost use Rattle.layer_scan.specs.CubePlanes.{HasRows};
ghost use Rattle.layer_scan.specs.GridEdges.{HasMet, TellsEdges, TellsLayer};
ghost use Rattle.layer_scan.specs.GridPlanes.{slice_of};
ghost use Rattle.layer_scan.specs.GridStates.{StandsAt, StandsBetween, slice_count};
ghost use Rattle.layer_scan.specs.PlanesOfCentres.{HasThreeAxes};
ghost use Rattle.layer_scan.specs.RowsOfEdges.{HasEdgeRows};
ghost use Rattle.layer_scan.specs.ScanEdges.{HasEdges, HasNoNumbers, NumbersPyramids, NumbersSlice, NumbersUpright};
ghost use Rattle.layer_scan.specs.ScanPlanes.{HasBitsBelow, HasFewSamples, HasPlanes};

use crate::centre_numbers::{CentreSigns, number_centres};
use crate::centres::write_centres;
use crate::numbers::{EdgeSigns, number_plane};
use crate::scan::{LayerPlanes, new_cubes};
use grid_rows::{BitPlane, EdgePlane, GridRows};
use iso_base::Memory;
use iso_model::Kind;
use std::alloc::Global;
use std::mem::swap;

/// The edges in the lower slice of a scan and in the one below it, and those of the last layer that was numbered, with
/// the number of edges that were met.
#[derive(Drop)]
pub struct LayerEdges {
    pub kind: Kind,
    /// The edges in the slice below the lower one, and in the lower one.
    pub below: EdgePlane,
    pub lower: EdgePlane,
    /// The edges of the layer that go from its lower slice to its upper one.
    pub upright: EdgePlane,
    /// In pyramids, the signs of the centres of the layer, and the edges between them and its lower and its upper
    /// slice.
    pub centres: BitPlane,
    pub to_lower: EdgePlane,
    pub to_upper: EdgePlane,
    pub count: u32,
}

impl LayerEdges {
    /// The edges of a grid of these rows, before any is met. Pyramids are of three dimensions.
    ///
    /// `Memory` where they do not fit into memory.
    pub fn new(alloc: Global, kind: Kind, rows: &GridRows) -> Result<LayerEdges, Memory>
        requires samples { HasFewSamples rows.now }
        requires three { kind ≡ Pyramid → HasThreeAxes rows.now }
        ensures kind { IfOk result (λ edges. edges.kind ≡ kind) }
        ensures none { IfOk result (HasNoNumbers rows.now) }
        ensures met { IfOk result (λ edges. (v : Volume) → HasDimension v.kind (length v.sizes) → HasMet v 0 edges) }
    {
        Ok(LayerEdges {
            kind,
            below: new_edges(alloc, rows)?,
            lower: new_edges(alloc, rows)?,
            upright: new_edges(alloc, rows)?,
            centres: new_centres(alloc, kind, rows)?,
            to_lower: new_edges_to_centres(alloc, kind, rows)?,
            to_upper: new_edges_to_centres(alloc, kind, rows)?,
            count: 0,
        })
    }

    /// Numbers the edges in the lower slice, which the kept cubes on both sides of it have.
    pub fn number_lower(&mut self, planes: &LayerPlanes)
        requires planes { HasPlanes planes.now }
        requires edges { HasEdges planes.now.rows self.old }
        requires few { self.old.count ≤ 2 ^ 31 }
        ensures edges { HasEdges planes.now.rows self.new }
        ensures numbers { NumbersSlice planes.now planes.now.around self.old self.new }
        ensures told { (v : Volume) (s : ℕ) → self.old.kind ≡ v.kind → StandsBetween v s planes.now
            → HasMet v (4 * s) self.old
            → TellsEdges v planes.now.rows (4 * s) self.new.lower × HasMet v (4 * s + 1) self.new }
    {
        self.number_slice(planes, &planes.around);
    }

    /// Numbers the edges in the lower slice where it is the last one, so that the kept cubes are below it.
    pub fn number_last(&mut self, planes: &LayerPlanes)
        requires planes { HasPlanes planes.now }
        requires edges { HasEdges planes.now.rows self.old }
        requires few { self.old.count ≤ 2 ^ 31 }
        ensures edges { HasEdges planes.now.rows self.new }
        ensures numbers { NumbersSlice planes.now planes.now.kept_below self.old self.new }
        ensures told { (v : Volume) (s : ℕ) → self.old.kind ≡ v.kind → StandsAt v s planes.now → s + 1 ≡ slice_count v
            → HasMet v (4 * s) self.old
            → TellsEdges v planes.now.rows (4 * s) self.new.lower × HasMet v (4 * s + 1) self.new }
    {
        self.number_slice(planes, &planes.kept_below);
    }

    // Numbers the edges in the lower slice that these kept cubes have.
    fn number_slice(&mut self, planes: &LayerPlanes, kept: &BitPlane)
        requires planes { HasPlanes planes.now }
        requires edges { HasEdges planes.now.rows self.old }
        requires kept { HasRows (bordered_rows planes.now.rows) planes.now.rows.words kept.now }
        requires within { HasBitsBelow (bordered_rows planes.now.rows) (planes.now.rows.length - 1) kept.now }
        requires few { self.old.count ≤ 2 ^ 31 }
        ensures edges { HasEdges planes.now.rows self.new }
        ensures numbers { NumbersSlice planes.now kept.now self.old self.new }
    {
        let signs = EdgeSigns {
            kind: self.kind,
            near: &planes.lower_signs,
            far: &planes.lower_signs,
            kept,
            upright: false,
        };
        self.count = number_plane(&mut self.lower, &planes.rows, &signs, self.count);
    }

    /// Numbers the edges of the layer between the two slices, given their samples, which are at most 2^32 from 0.
    pub fn number_layer(&mut self, planes: &LayerPlanes, lower: &[i64], upper: &[i64])
        requires planes { HasPlanes planes.now }
        requires edges { HasEdges planes.now.rows self.old }
        requires lower { length lower.now ≡ sample_rows planes.now.rows * planes.now.rows.length }
        requires upper { length upper.now ≡ sample_rows planes.now.rows * planes.now.rows.length }
        requires small { AreSmall lower.now }
        requires small_above { AreSmall upper.now }
        requires few { self.old.count ≤ 2 ^ 31 }
        ensures edges { HasEdges planes.now.rows self.new }
        ensures plain { self.old.kind ≢ Pyramid → NumbersUpright planes.now self.old self.new }
        ensures pyramids { self.old.kind ≡ Pyramid →
            NumbersPyramids planes.now lower.now upper.now self.old self.new }
        ensures told { (v : Volume) (s : ℕ) → self.old.kind ≡ v.kind → StandsBetween v s planes.now
            → lower.now ≡ slice_of planes.now.rows v.samples s → upper.now ≡ slice_of planes.now.rows v.samples (s + 1)
            → HasMet v (4 * s + 1) self.old
            → TellsLayer v planes.now.rows s self.new × HasMet v (4 * (s + 1)) self.new }
    {
        self.number_by_kind(planes, lower, upper);
    }

    // Numbers the edges of the layer, of pyramids with those to the centres.
    fn number_by_kind(&mut self, planes: &LayerPlanes, lower: &[i64], upper: &[i64])
        requires planes { HasPlanes planes.now }
        requires edges { HasEdges planes.now.rows self.old }
        requires lower { length lower.now ≡ sample_rows planes.now.rows * planes.now.rows.length }
        requires upper { length upper.now ≡ sample_rows planes.now.rows * planes.now.rows.length }
        requires small { AreSmall lower.now }
        requires small_above { AreSmall upper.now }
        requires few { self.old.count ≤ 2 ^ 31 }
        ensures edges { HasEdges planes.now.rows self.new }
        ensures plain { self.old.kind ≢ Pyramid → NumbersUpright planes.now self.old self.new }
        ensures pyramids { self.old.kind ≡ Pyramid →
            NumbersPyramids planes.now lower.now upper.now self.old self.new }
    {
        match self.kind {
            Kind::Pyramid => self.number_pyramids(planes, lower, upper),
            Kind::Cube | Kind::Simplex => self.number_upright(planes),
        }
    }

    // Numbers the edges from the lower slice to the upper one.
    fn number_upright(&mut self, planes: &LayerPlanes)
        requires planes { HasPlanes planes.now }
        requires edges { HasEdges planes.now.rows self.old }
        requires few { self.old.count ≤ 2 ^ 31 }
        ensures edges { HasEdges planes.now.rows self.new }
        ensures numbers { NumbersUpright planes.now self.old self.new }
    {
        let signs = EdgeSigns {
            kind: self.kind,
            near: &planes.lower_signs,
            far: &planes.upper_signs,
            kept: &planes.kept,
            upright: true,
        };
        self.count = number_plane(&mut self.upright, &planes.rows, &signs, self.count);
    }

    // Writes the signs of the centres, and numbers the edges of a layer of pyramids.
    fn number_pyramids(&mut self, planes: &LayerPlanes, lower: &[i64], upper: &[i64])
        requires planes { HasPlanes planes.now }
        requires edges { HasEdges planes.now.rows self.old }
        requires pyramids { self.old.kind ≡ Pyramid }
        requires lower { length lower.now ≡ sample_rows planes.now.rows * planes.now.rows.length }
        requires upper { length upper.now ≡ sample_rows planes.now.rows * planes.now.rows.length }
        requires small { AreSmall lower.now }
        requires small_above { AreSmall upper.now }
        requires few { self.old.count ≤ 2 ^ 31 }
        ensures edges { HasEdges planes.now.rows self.new }
        ensures numbers { NumbersPyramids planes.now lower.now upper.now self.old self.new }
    {
        let (rows, kept) = (&planes.rows, &planes.kept);
        write_centres(&mut self.centres, rows, kept, lower, upper, planes.iso);
        let corners = &planes.lower_signs;
        let signs = CentreSigns {
            centres: &self.centres,
            corners,
            kept,
        };
        self.count = number_centres(&mut self.to_lower, rows, &signs, self.count);
        let (near, far) = (&planes.lower_signs, &planes.upper_signs);
        let signs = EdgeSigns {
            kind: self.kind,
            near,
            far,
            kept,
            upright: true,
        };
        self.count = number_plane(&mut self.upright, rows, &signs, self.count);
        let corners = &planes.upper_signs;
        let signs = CentreSigns {
            centres: &self.centres,
            corners,
            kept,
        };
        self.count = number_centres(&mut self.to_upper, rows, &signs, self.count);
    }

    /// Makes the upper slice the lower one.
    pub fn advance(&mut self)
        ensures { self.new ≡ record self.old { below = self.old.lower; lower = self.old.below } }
    {
        swap(&mut self.below, &mut self.lower);
    }
}

// A plane with the rows of edges of a slice, or of those between two.
fn new_edges(alloc: Global, rows: &GridRows) -> Result<EdgePlane, Memory>
    requires { HasFewSamples rows.now }
    ensures plane { IfOk result (HasEdgeRows (edge_rows rows.now) rows.now.words) }
{
    EdgePlane::new(alloc, rows.edge_rows(), rows.words)
}

// For pyramids a plane with the rows of the cubes of a layer and a border, and else one with no row.
fn new_centres(alloc: Global, kind: Kind, rows: &GridRows) -> Result<BitPlane, Memory>
    requires { HasFewSamples rows.now }
    ensures plane { IfOk result (λ plane. kind ≡ Pyramid → HasRows (bordered_rows rows.now) rows.now.words plane) }
{
    match kind {
        Kind::Pyramid => new_cubes(alloc, rows),
        Kind::Cube | Kind::Simplex => BitPlane::new(alloc, 0, rows.words),
    }
}

// For pyramids a plane with two rows of edges for each row of cubes of a layer, and else one with no row.
fn new_edges_to_centres(alloc: Global, kind: Kind, rows: &GridRows) -> Result<EdgePlane, Memory>
    requires { HasFewSamples rows.now }
    ensures plane { IfOk result (λ plane. kind ≡ Pyramid →
        HasEdgeRows (2 * cube_rows rows.now) rows.now.words plane) }
{
    match kind {
        Kind::Pyramid => EdgePlane::new(alloc, 2 * rows.cube_rows(), rows.words),
        Kind::Cube | Kind::Simplex => EdgePlane::new(alloc, 0, rows.words),
    }
}
