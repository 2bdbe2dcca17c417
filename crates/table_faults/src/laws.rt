//! Laws of the list of faults. The functions do nothing when they run.

ghost use Rattle.std.specs.Prelude.{◌≡◌, ◌↔◌, List, [], ◌∷◌};
ghost use Rattle.iso_model.specs.Tables.{Table};
ghost use Rattle.iso_model.specs.Acceptance.{IsAccepted, IsRefusedAt};
ghost use Rattle.table_faults.specs.declared.faults.Fault.{Fault};
ghost use Rattle.table_faults.specs.Faults.{AreFaults};

/// A table is accepted exactly where its list of faults is empty.
pub fn no_fault_law()
    ensures { (t : Table) (faults : List Fault) → AreFaults t faults → (faults ≡ []) ↔ IsAccepted t }
{}

/// A table that is not accepted is refused at the label and the rule of its first fault.
pub fn first_fault_law()
    ensures { (t : Table) (f : Fault) (fs : List Fault) → AreFaults t (f ∷ fs) → IsRefusedAt t f.label f.rule }
{}

/// A table has one list of faults.
pub fn one_list_law()
    ensures { (t : Table) (fs gs : List Fault) → AreFaults t fs → AreFaults t gs → fs ≡ gs }
{}
