//! The simplices of a layer of cubes, row by row.

ghost use Rattle.std.specs.Prelude.{◌≡◌, ◌<◌, ◌++◌, ℕ, All, OnOk};
ghost use Rattle.iso_model.specs.Values.{Volume};
ghost use Rattle.bit_rows.specs.Rows.{IsWordOf};
ghost use Rattle.grid_rows.specs.RowNumbers.{bordered_rows, cube_rows, sample_rows};

use crate::cells::CubeCells;
use crate::cubes::add_cube;
use crate::signs::{PointRows, SignWords};
use bit_rows::Ones;
use iso_base::Memory;
use layer_scan::{CornerRows, CubeSlots, LayerEdges, LayerPlanes, MOST_PLACES};
use table_file::Table;

// The layer of cubes below the lower slice of a scan, all of whose edges have their numbers; a table, and the cells of a
// cube of its split.
#[derive(Clone, Copy)]
pub(crate) struct Layer<'a, const D: usize> {
    pub(crate) table: &'a Table<D>,
    pub(crate) cells: &'a CubeCells,
    pub(crate) planes: &'a LayerPlanes,
    pub(crate) edges: &'a LayerEdges,
}

impl<'a, const D: usize> Layer<'a, D> {
    ghost use Rattle.layer_mesh.specs.CubeCells.{AreCubeCells};
    ghost use Rattle.layer_mesh.specs.CubeSigns.{ArePointsOf, AreSignsOfRow};
    ghost use Rattle.layer_mesh.specs.LayerCubes.{TellsLayerBelow, is_mixed_at, layer_simplices, row_simplices};
    ghost use Rattle.layer_mesh.specs.LayerCubes.{word_simplices};

    // Adds the simplices of the cubes of the layer.
    pub(crate) fn add(&self, simplices: &mut Vec<[u32; D]>) -> Result<(), Memory>
        requires cells { AreCubeCells self.now.table.now.kind D self.now.cells.now }
        requires told { (v : Volume) × (s : ℕ)
            × TellsLayerBelow v D self.now.table.now s self.now.planes.now self.now.edges.now }
        ensures { (v : Volume) (s : ℕ) → TellsLayerBelow v D self.now.table.now s self.now.planes.now self.now.edges.now
            → OnOk result (simplices.new.items
            ≡ simplices.old.items ++ layer_simplices v self.now.table.now self.now.planes.now.rows s) }
    {
        for number in 0..self.planes.rows.cube_rows() {
            self.add_row(simplices, number)?;
        }
        Ok(())
    }

    // Adds those of a row of cubes.
    fn add_row(&self, simplices: &mut Vec<[u32; D]>, number: usize) -> Result<(), Memory>
        requires number { number < cube_rows self.now.planes.now.rows }
        requires cells { AreCubeCells self.now.table.now.kind D self.now.cells.now }
        requires told { (v : Volume) × (s : ℕ)
            × TellsLayerBelow v D self.now.table.now s self.now.planes.now self.now.edges.now }
        ensures { (v : Volume) (s : ℕ) → TellsLayerBelow v D self.now.table.now s self.now.planes.now self.now.edges.now
            → OnOk result (simplices.new.items
            ≡ simplices.old.items ++ row_simplices v self.now.table.now self.now.planes.now.rows s number) }
    {
        let row = self.planes.rows.cube_row(number);
        let kept = self.planes.kept_below.row(row.number);
        let corners = CornerRows {
            lower: &self.planes.below_signs,
            upper: &self.planes.lower_signs,
            row,
        };
        for w in 0..self.planes.rows.words {
            let mixed = corners.mixed(w) & kept[w];
            self.add_word(simplices, number, w, mixed)?;
        }
        Ok(())
    }

    // Adds those of the mixed kept cubes of a word of a row.
    fn add_word(
        &self,
        simplices: &mut Vec<[u32; D]>,
        number: usize,
        w: usize,
        mixed: u64,
    ) -> Result<(), Memory>
        requires number { number < cube_rows self.now.planes.now.rows }
        requires word { w < self.now.planes.now.rows.words }
        requires mixed { IsWordOf (is_mixed_at self.now.planes.now number) w mixed }
        requires cells { AreCubeCells self.now.table.now.kind D self.now.cells.now }
        requires told { (v : Volume) × (s : ℕ)
            × TellsLayerBelow v D self.now.table.now s self.now.planes.now self.now.edges.now }
        ensures { (v : Volume) (s : ℕ) → TellsLayerBelow v D self.now.table.now s self.now.planes.now self.now.edges.now
            → OnOk result (simplices.new.items
            ≡ simplices.old.items ++ word_simplices v self.now.table.now self.now.planes.now.rows s number w) }
    {
        if mixed == 0 {
            return Ok(());
        }
        let signs = self.sign_words(number, w);
        let slots = CubeSlots::new(self.edges, &self.planes.rows, number, w);
        let mut numbers = [0; MOST_PLACES];
        for place in Ones::of(mixed) {
            slots.count(&mut numbers, place);
            add_cube(simplices, self.table, self.cells, signs.at(place), &numbers)?;
        }
        Ok(())
    }

    // The signs of the points of the cubes of a word of a row.
    fn sign_words(&self, number: usize, w: usize) -> SignWords
        requires number { number < cube_rows self.now.planes.now.rows }
        requires word { w < self.now.planes.now.rows.words }
        requires told { (v : Volume) × (s : ℕ)
            × TellsLayerBelow v D self.now.table.now s self.now.planes.now self.now.edges.now }
        ensures { AreSignsOfRow D self.now.planes.now self.now.edges.now number w result }
    {
        SignWords::new::<D>(&self.point_rows(number), w)
    }

    // The rows of signs in which the points of a row of cubes are.
    fn point_rows(&self, number: usize) -> PointRows<'a>
        requires number { number < cube_rows self.now.planes.now.rows }
        ensures points { ArePointsOf self.now.planes.now self.now.edges.now number result }
        ensures corners { All (λ n. n < sample_rows self.now.planes.now.rows) result.row.corners }
        ensures bordered { result.row.number < bordered_rows self.now.planes.now.rows }
    {
        PointRows {
            kind: self.edges.kind,
            lower: &self.planes.below_signs,
            upper: &self.planes.lower_signs,
            centres: &self.edges.centres,
            row: self.planes.rows.cube_row(number),
        }
    }
}
