//! The simplices of the cells of a cube.

ghost use Rattle.std.specs.Prelude.{◌≡◌, ◌<◌, ◌+◌, ◌*◌, ◌++◌, ℕ, OnOk, flat_map};
ghost use Rattle.iso_model.specs.Bipolar.{bipolar_edges};
ghost use Rattle.iso_model.specs.Placed.{cell_simplices};
ghost use Rattle.iso_model.specs.Splits.{cells_per_cube};
ghost use Rattle.iso_model.specs.Values.{Volume};
ghost use Rattle.edge_middles.specs.HeldMiddles.{cells_in};
ghost use Rattle.layer_mesh.specs.CubeCells.{AreCubeCells, TellsCube};

use crate::cells::CubeCells;
use crate::simplices::add_cell;
use iso_base::Memory;
use layer_scan::MOST_PLACES;
use table_file::Table;

/// Adds the simplices of the cells of a kept cube, by the signs of its points and the numbers of its edges.
pub fn add_cube<const D: usize>(
    simplices: &mut Vec<[u32; D]>,
    table: &Table<D>,
    cells: &CubeCells,
    signs: u32,
    numbers: &[u32; MOST_PLACES],
) -> Result<(), Memory>
    requires cells { AreCubeCells table.now.kind D cells.now }
    requires told { (v : Volume) × (cube : ℕ) × TellsCube v cube D table.now signs numbers.now }
    ensures { (v : Volume) (cube : ℕ) → TellsCube v cube D table.now signs numbers.now → OnOk result
        (simplices.new.items ≡ simplices.old.items
        ++ flat_map (cell_simplices v table.now (bipolar_edges v)) (cells_in v.kind v.sizes cube)) }
{
    for rank in 0..cells.count {
        add_ranked(simplices, table, cells, rank, signs, numbers)?;
    }
    Ok(())
}

// Adds those of the cell of this rank.
fn add_ranked<const D: usize>(
    simplices: &mut Vec<[u32; D]>,
    table: &Table<D>,
    cells: &CubeCells,
    rank: usize,
    signs: u32,
    numbers: &[u32; MOST_PLACES],
) -> Result<(), Memory>
    requires cells { AreCubeCells table.now.kind D cells.now }
    requires rank { rank < cells.now.count }
    requires told { (v : Volume) × (cube : ℕ) × TellsCube v cube D table.now signs numbers.now }
    ensures { (v : Volume) (cube : ℕ) → TellsCube v cube D table.now signs numbers.now → OnOk result
        (simplices.new.items ≡ simplices.old.items
        ++ cell_simplices v table.now (bipolar_edges v) (cube * cells_per_cube v.kind D + rank)) }
{
    let cell = &cells.cells[rank];
    let label = cell.label(signs);
    add_cell(simplices, table, label, &cell.numbers(numbers), cell.odd)
}
