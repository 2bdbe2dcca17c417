//! The generated tables.

ghost use Rattle.std.specs.Prelude.{◌≡◌, ◌^◌, map, IfOk};
ghost use Rattle.iso_model.specs.Entries.{IsHullTable};
ghost use Rattle.table_make.specs.HullEntries.{AreHullEntries};

use crate::entries::{hull_entries, labels};
use cell_lattice::Cell;
use iso_base::Memory;
use std::alloc::Global;
use table_file::Table;

/// The table of a cell that the construction gives: its entry of each label is that of the labelling. Bit k of a label
/// is set where corner k is positive. The only error is want of memory.
pub fn make<C: Cell<D>, const D: usize>(alloc: Global) -> Result<Table<D>, Memory>
    ensures { IfOk result (λ table. (table.kind ≡ C.KIND) × (table.dimension ≡ D) × IsHullTable table) }
{
    let entries = hull_entries::<C, D>(alloc, 0, labels::<C, D>())?;
    Ok(table_of::<C, D>(entries))
}

/// The table of a cell with these entries of the construction.
pub(crate) fn table_of<C: Cell<D>, const D: usize>(entries: Vec<Vec<[u8; D]>>) -> Table<D>
    requires { AreHullEntries C.KIND D 0 (2 ^ C.CORNERS) (map (λ e. e.items) entries.items) }
    ensures kind { result.kind ≡ C.KIND }
    ensures dimension { result.dimension ≡ D }
    ensures hulls { IsHullTable result }
{
    match Table::from_entries(C::KIND, entries) {
        Ok(table) => table,
        Err(_) => unreachable!(),
    }
}
