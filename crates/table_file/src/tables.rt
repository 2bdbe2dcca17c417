//! Tables in memory.

ghost use Rattle.std.specs.Prelude.{◌≡◌, ◌<◌, length, IfOk, IfErr, IsOk};
ghost use Rattle.iso_model.specs.Cells.{label_count};
ghost use Rattle.iso_model.specs.Tables.{IsTable, IsEntry, entry_of};
ghost use Rattle.table_file.specs.Holding.{table_with};

use crate::checks::{are_entries, has_dimension};
use iso_model::Kind;
use std::marker::Model;

/// For each labelling of the corners of a cell of dimension `D`, a list of tuples of `D` edge numbers.
///
/// A table always has an entry for each of the 2 ^ CORNERS labels of its kind and dimension, at most 2^28 tuples in
/// each entry, and edge numbers below the number of edges of the cell.
#[derive(Drop)]
pub struct Table<const D: usize> {
    kind: Kind,
    entries: Vec<Vec<[u8; D]>>,
}

impl<const D: usize> Model for Table<D> {
    ghost use Rattle.iso_model.specs.Tables.{Table as TableValue, IsTable};
    ghost use Rattle.table_file.specs.Holding.{table_with};

    ghost Value = { TableValue };

    ghost view = { λ t. table_with t.kind D t.entries.items };

    ghost invariant = { λ t. IsTable (table_with t.kind D t.entries.items) };
}

/// A table of any of the dimensions.
#[derive(Drop)]
pub enum AnyTable {
    T2(Table<2>),
    T3(Table<3>),
    T4(Table<4>),
}

impl<const D: usize> Table<D> {
    /// The shape of the cells. What a table always holds is known from here on.
    pub fn kind(&self) -> Kind
        ensures kind { result ≡ self.now.kind }
        ensures dimension { self.now.dimension ≡ D }
        ensures table { IsTable self.now }
    {
        self.kind
    }

    /// The number of labels, which are the numbers from 0 on.
    pub fn labels(&self) -> u32
        ensures entries { result ≡ length self.now.entries }
        ensures labels { result ≡ label_count self.now.kind D }
        ensures dimension { self.now.dimension ≡ D }
        ensures table { IsTable self.now }
    {
        self.entries.len() as u32
    }

    /// The tuples of a label, in their order.
    pub fn tuples(&self, label: u32) -> &[[u8; D]]
        requires { label < length self.now.entries }
        ensures tuples { result.now ≡ entry_of self.now label }
        ensures sound { IsEntry self.now.kind D result.now }
    {
        self.entries[label as usize].as_slice()
    }

    /// The table of these entries, one for each label from 0 on. It hands them back where they break what a table
    /// always holds, or no cells of this shape and dimension have tables.
    pub fn from_entries(
        kind: Kind,
        entries: Vec<Vec<[u8; D]>>,
    ) -> Result<Table<D>, Vec<Vec<[u8; D]>>>
        ensures table { IfOk result (λ table. table ≡ table_with kind D entries.entry.items) }
        ensures handed_back { IfErr result (λ back. back ≡ entries.entry) }
        ensures accepted { IsTable (table_with kind D entries.entry.items) → IsOk result }
    {
        if has_dimension(kind, D) && are_entries(kind, &entries) {
            Ok(Table { kind, entries })
        } else {
            Err(entries)
        }
    }

    /// The table of entries that make one.
    pub(crate) fn assemble(kind: Kind, entries: Vec<Vec<[u8; D]>>) -> Table<D>
        requires { IsTable (table_with kind D entries.items) }
        ensures { result ≡ table_with kind D entries.entry.items }
    {
        Table { kind, entries }
    }
}
