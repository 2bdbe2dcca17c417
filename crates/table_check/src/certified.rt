//! Tables that the check accepts.

ghost use Rattle.std.specs.Prelude.{◌≡◌, IfOk, IfErr};
ghost use Rattle.iso_model.specs.Tables.{IsTable};
ghost use Rattle.iso_model.specs.Acceptance.{IsAccepted};
ghost use Rattle.table_check.specs.Handed.{HandsBack};
ghost use Rattle.table_check.specs.Verdicts.{IsVerdictOn};

use crate::Verdict;
use crate::labels::check;
use cell_lattice::Cell;
use iso_base::Memory;
use std::alloc::Global;
use std::marker::{Model, PhantomData};
use table_file::Table;

/// A table of the cell `C` of which each label keeps each rule.
#[derive(Drop)]
pub struct Checked<C: Cell<D>, const D: usize> {
    table: Table<D>,
    cell: PhantomData<C>,
}

impl<C: Cell<D>, const D: usize> Model for Checked<C, D> {
    ghost use Rattle.std.specs.Prelude.{◌≡◌};
    ghost use Rattle.iso_model.specs.Tables.{Table as TableValue};
    ghost use Rattle.iso_model.specs.Acceptance.{IsAccepted};

    ghost Value = { TableValue };

    ghost view = { λ c. c.table };

    ghost invariant = { λ c. (c.table.kind ≡ C.KIND) × IsAccepted c.table };
}

/// Why a table is not certified. It is handed back as it was.
#[derive(Drop)]
pub enum CertifyFault<const D: usize> {
    /// The least label that fails a rule, and the least rule, from 1 to 6, that this label fails.
    Refused {
        table: Table<D>,
        label: u32,
        rule: u8,
    },
    /// Memory ran out before there was a verdict.
    Memory {
        table: Table<D>,
    },
}

impl<C: Cell<D>, const D: usize> Checked<C, D> {
    /// The table.
    pub fn table(&self) -> &Table<D>
        ensures same { result.now ≡ self.now }
        ensures kind { result.now.kind ≡ C.KIND }
        ensures dimension { result.now.dimension ≡ D }
        ensures whole { IsTable result.now }
        ensures accepted { IsAccepted result.now }
    {
        let _kind = self.table.kind();
        &self.table
    }
}

/// The table, where each label keeps each rule; else the table as it was, with the label and rule of the refusal.
pub fn certify<C: Cell<D>, const D: usize>(
    alloc: Global,
    table: Table<D>,
) -> Result<Checked<C, D>, CertifyFault<D>>
    requires { table.kind ≡ C.KIND }
    ensures checked { IfOk result (λ checked. checked ≡ table.entry) }
    ensures handed_back { IfErr result (HandsBack table.entry) }
{
    let verdict = check::<C, D>(alloc, &table);
    by_verdict(table, verdict)
}

/// The table, where this is its verdict, as a checked one or handed back.
pub(crate) fn by_verdict<C: Cell<D>, const D: usize>(
    table: Table<D>,
    verdict: Result<Verdict, Memory>,
) -> Result<Checked<C, D>, CertifyFault<D>>
    requires kind { table.kind ≡ C.KIND }
    requires verdict { IfOk verdict (IsVerdictOn table) }
    ensures checked { IfOk result (λ checked. checked ≡ table.entry) }
    ensures handed_back { IfErr result (HandsBack table.entry) }
{
    match verdict {
        Ok(Verdict::Accepted) => Ok(Checked {
            table,
            cell: PhantomData,
        }),
        Ok(Verdict::Refused { label, rule }) => Err(CertifyFault::Refused { table, label, rule }),
        Err(Memory) => Err(CertifyFault::Memory { table }),
    }
}
