//! The check of tables for simplices that meet in any way, each with its corners in the order of its vertices' numbers.

ghost use Rattle.std.specs.Prelude.{◌≡◌, ◌+◌, ◌≤◌, IfOk, IfErr};
ghost use Rattle.iso_model.specs.declared.Kind.{Kind};
ghost use Rattle.iso_model.specs.Seams.{seam};
ghost use Rattle.iso_model.specs.Tables.{IsTable};
ghost use Rattle.iso_model.specs.OrderedAcceptance.{ordered_seams, IsAcceptedInOrder};
ghost use Rattle.lists.specs.Orders.{is_odd};
ghost use Rattle.seam_traces.specs.SeamLists.{seam_of, seams_of};
ghost use Rattle.table_check.specs.Handed.{HandsBackInOrder};
ghost use Rattle.table_check.specs.Verdicts.{IsVerdictInOrder};

use crate::labels::check_over;
use crate::{CertifyFault, Verdict};
use cell_lattice::SimplexCell;
use iso_base::Memory;
use seam_traces::FacetSeam;
use std::alloc::Global;
use std::marker::Model;
use table_file::Table;

/// A table of the simplex of three dimensions of which each label keeps each rule, that of seams over the ordered ones.
#[derive(Drop)]
pub struct OrderedChecked {
    table: Table<3>,
}

impl Model for OrderedChecked {
    ghost use Rattle.iso_model.specs.Tables.{Table as TableValue};
    ghost use Rattle.iso_model.specs.OrderedAcceptance.{IsOfTetrahedron, IsAcceptedInOrder};

    ghost Value = { TableValue };

    ghost view = { λ c. c.table };

    ghost invariant = { λ c. IsOfTetrahedron c.table × IsAcceptedInOrder c.table };
}

impl OrderedChecked {
    /// The table.
    pub fn table(&self) -> &Table<3>
        ensures same { result.now ≡ self.now }
        ensures kind { result.now.kind ≡ Kind.Simplex }
        ensures dimension { result.now.dimension ≡ 3 }
        ensures whole { IsTable result.now }
        ensures accepted { IsAcceptedInOrder result.now }
    {
        let _kind = self.table.kind();
        &self.table
    }
}

/// Accepted exactly where each label keeps each rule, that of seams over the ordered ones; else the least label that
/// fails a rule, and the least rule that this label fails.
pub fn check_ordered(alloc: Global, table: &Table<3>) -> Result<Verdict, Memory>
    requires { table.now.kind ≡ Kind.Simplex }
    ensures { IfOk result (IsVerdictInOrder table.now) }
{
    check_over::<SimplexCell<3>, 3>(alloc, table, &ordered_seams())
}

/// The table, where each label keeps each rule, that of seams over the ordered ones; else the table as it was, with the
/// label and rule of the refusal.
pub fn certify_ordered(alloc: Global, table: Table<3>) -> Result<OrderedChecked, CertifyFault<3>>
    requires { table.kind ≡ Kind.Simplex }
    ensures checked { IfOk result (λ checked. checked ≡ table) }
    ensures handed_back { IfErr result (HandsBackInOrder table) }
{
    let _kind = table.kind();
    match check_ordered(alloc, &table) {
        Ok(Verdict::Accepted) => Ok(OrderedChecked { table }),
        Ok(Verdict::Refused { label, rule }) => Err(CertifyFault::Refused { table, label, rule }),
        Err(Memory) => Err(CertifyFault::Memory { table }),
    }
}

/// The ordered seams: each facet with itself and with each later one.
fn ordered_seams() -> [FacetSeam; 10]
    ensures { seams_of result ≡ ordered_seams }
{
    [
        ordered_seam(0, 0),
        ordered_seam(0, 1),
        ordered_seam(0, 2),
        ordered_seam(0, 3),
        ordered_seam(1, 1),
        ordered_seam(1, 2),
        ordered_seam(1, 3),
        ordered_seam(2, 2),
        ordered_seam(2, 3),
        ordered_seam(3, 3),
    ]
}

/// The ordered seam of two facets.
fn ordered_seam(facet: u8, other: u8) -> FacetSeam
    requires first { facet ≤ 3 }
    requires second { other ≤ 3 }
    ensures { seam_of result ≡ seam facet other (is_odd (facet + other)) }
{
    FacetSeam {
        facet,
        other,
        same: (facet + other) % 2 == 1,
    }
}
