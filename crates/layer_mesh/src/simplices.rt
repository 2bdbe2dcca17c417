//! The simplices of a cell.

ghost use Rattle.std.specs.Prelude.{◌≡◌, ◌<◌, ◌++◌, ℕ, OnOk};
ghost use Rattle.iso_model.specs.Bipolar.{bipolar_edges};
ghost use Rattle.iso_model.specs.Cells.{label_count};
ghost use Rattle.iso_model.specs.Placed.{cell_simplices};
ghost use Rattle.iso_model.specs.Values.{Volume};
ghost use Rattle.layer_mesh.specs.CellNumbers.{TellsCell};

use iso_base::Memory;
use mesh_placing::{MOST_EDGES, add_tuples};
use table_file::Table;

/// Adds the simplices of a kept cell: the tuples of the entry of its label, each edge replaced by its number, and the
/// last two exchanged where the cell is odd. Each bipolar edge of the cell has its number among those of the mesh; what
/// stands for the others is not read.
pub fn add_cell<const D: usize>(
    simplices: &mut Vec<[u32; D]>,
    table: &Table<D>,
    label: u32,
    numbers: &[u32; MOST_EDGES],
    odd: bool,
) -> Result<(), Memory>
    requires label { label < label_count table.now.kind D }
    requires told { (v : Volume) × (cell : ℕ) × TellsCell v cell D table.now label numbers.now odd }
    ensures { (v : Volume) (cell : ℕ) → TellsCell v cell D table.now label numbers.now odd
        → OnOk result (simplices.new.items ≡ simplices.old.items ++ cell_simplices v table.now (bipolar_edges v) cell) }
{
    // What a table always holds is known from here on.
    let _ = table.kind();
    let tuples = table.tuples(label);
    add_tuples(simplices, tuples, numbers, odd)
}
