//! Laws of accepted tables. The functions do nothing when they run.

ghost use Rattle.iso_model.specs.Tables.{Table, IsTable};
ghost use Rattle.iso_model.specs.Acceptance.{IsAccepted};
ghost use Rattle.table_check.specs.EmptyEnds.{HasEmptyEnds};

/// An accepted table has no tuple where no corner, or each corner, is positive.
pub fn empty_ends_law()
    ensures { (t : Table) → IsTable t → IsAccepted t → HasEmptyEnds t }
{}
