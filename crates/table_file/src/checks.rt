//! What a table always holds, asked of entries that are given.

ghost use Rattle.std.specs.Prelude.{◌↔◌, IsTrue};
ghost use Rattle.iso_model.specs.Cells.{HasDimension};
ghost use Rattle.iso_model.specs.Tables.{IsTuple, IsEntry};
ghost use Rattle.table_file.specs.Holding.{AreEntries};

use crate::entries::{MOST_TUPLES, first_wrong};
use crate::heads::{edges, labels};
use iso_model::Kind;

/// There are tables of cells of this shape and dimension.
pub(crate) fn has_dimension(kind: Kind, dimension: usize) -> bool
    ensures { IsTrue result ↔ HasDimension kind dimension }
{
    match kind {
        Kind::Cube | Kind::Simplex => 2 <= dimension && dimension <= 4,
        Kind::Pyramid => dimension == 3,
    }
}

/// Each of the numbers is below the number of edges.
fn is_tuple<const D: usize>(kind: Kind, tuple: &[u8; D]) -> bool
    requires { HasDimension kind D }
    ensures { IsTrue result ↔ IsTuple kind D tuple.now }
{
    first_wrong(tuple, edges(kind, D as u8)).is_none()
}

/// There are not too many tuples, and each is one.
fn is_entry<const D: usize>(kind: Kind, tuples: &[[u8; D]]) -> bool
    requires { HasDimension kind D }
    ensures { IsTrue result ↔ IsEntry kind D tuples.now }
{
    if tuples.len() > MOST_TUPLES {
        return false;
    }
    for tuple in tuples {
        if !is_tuple(kind, tuple) {
            return false;
        }
    }
    true
}

/// There is an entry for each label.
pub(crate) fn are_entries<const D: usize>(kind: Kind, entries: &[Vec<[u8; D]>]) -> bool
    requires { HasDimension kind D }
    ensures { IsTrue result ↔ AreEntries kind D entries.now }
{
    if entries.len() != labels(kind, D as u8) as usize {
        return false;
    }
    for entry in entries {
        if !is_entry(kind, entry) {
            return false;
        }
    }
    true
}
