//! The list of all faults.

ghost use Rattle.std.specs.Prelude.{◌≡◌, ◌<◌, ◌++◌, ◌∷◌, [], length, IfOk, OnOk};
ghost use Rattle.iso_model.specs.Tables.{entry_of};
ghost use Rattle.face_tallies.specs.Tallies.{AreTallies};
ghost use Rattle.seam_traces.specs.Kept.{TellTable};
ghost use Rattle.seam_traces.specs.SeamLists.{seams_of, AreSeamsOf};
ghost use Rattle.table_faults.specs.Faults.{AreFaults, AreFaultsOver, TellsFault};

use crate::Fault;
use cell_lattice::Cell;
use face_tallies::{FaceTally, TallyRoom, tally};
use iso_base::Memory;
use label_rules::Figures;
use seam_traces::{FacetSeam, Traces, cell_seams};
use std::alloc::Global;
use table_check::first_failed;
use table_file::Table;

/// The fault of each label that fails a rule, in ascending order of the labels. The only error is want of memory.
pub fn table_faults<C: Cell<D>, const D: usize>(
    alloc: Global,
    table: &Table<D>,
) -> Result<Vec<Fault>, Memory>
    requires { table.now.kind ≡ C.KIND }
    ensures { IfOk result (λ faults. AreFaults table.now faults.items) }
{
    let _kind = table.kind();
    let seams = cell_seams::<C, D>(alloc)?;
    faults_over::<C, D>(alloc, table, &seams)
}

/// The same with the rule of seams over these seams of the cell.
fn faults_over<C: Cell<D>, const D: usize>(
    alloc: Global,
    table: &Table<D>,
    seams: &[FacetSeam],
) -> Result<Vec<Fault>, Memory>
    requires kind { table.now.kind ≡ C.KIND }
    requires seams { AreSeamsOf C.KIND D (seams_of seams.now) }
    ensures { IfOk result (λ faults. AreFaultsOver (seams_of seams.now) table.now faults.items) }
{
    let figures = Figures::<D>::of::<C>();
    let traces = Traces::<C, D>::gather(alloc, table)?;
    let mut room = TallyRoom::new(alloc);
    let mut tallies = Vec::new(alloc);
    let mut faults = Vec::new(alloc);
    for label in 0..table.labels() {
        tally(table.tuples(label), &mut room, &mut tallies)?;
        if let Some(fault) = fault_of(&figures, &traces, seams, table, label, &tallies) {
            push(&mut faults, fault)?;
        }
    }
    Ok(faults)
}

/// The fault of a label, by the tallies of its tuples, and none where it keeps each rule.
fn fault_of<C: Cell<D>, const D: usize>(
    figures: &Figures<D>,
    traces: &Traces<C, D>,
    seams: &[FacetSeam],
    table: &Table<D>,
    label: u32,
    tallies: &[FaceTally],
) -> Option<Fault>
    requires cell { figures.now ≡ C.KIND }
    requires kind { table.now.kind ≡ C.KIND }
    requires seams { AreSeamsOf C.KIND D (seams_of seams.now) }
    requires label { label < length table.now.entries }
    requires tallies { AreTallies D (entry_of table.now label) tallies.now }
    requires traces { TellTable C.KIND D table.now traces.now }
    ensures { TellsFault (seams_of seams.now) table.now label result }
{
    let _kind = table.kind();
    match first_failed(figures, traces, seams, table, label, tallies) {
        None => None,
        Some(6) => Some(Fault {
            label,
            rule: 6,
            clash: traces.first_clash(seams, label, tallies),
        }),
        Some(rule) => Some(Fault {
            label,
            rule,
            clash: None,
        }),
    }
}

/// Adds a fault to the end of a list.
fn push(faults: &mut Vec<Fault>, fault: Fault) -> Result<(), Memory>
    ensures { OnOk result (faults.new.items ≡ faults.old.items ++ fault ∷ []) }
{
    match faults.push(fault) {
        Ok(()) => Ok(()),
        Err(_) => Err(Memory),
    }
}
