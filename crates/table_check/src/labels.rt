//! The check of all labels of a table.

ghost use Rattle.std.specs.Prelude.{◌≡◌, ◌<◌, ◌≤◌, length, IfOk};
ghost use Rattle.iso_model.specs.Tables.{entry_of};
ghost use Rattle.iso_model.specs.Acceptance.{rule_over};
ghost use Rattle.face_tallies.specs.Tallies.{AreTallies};
ghost use Rattle.seam_traces.specs.Kept.{TellTable};
ghost use Rattle.seam_traces.specs.SeamLists.{seams_of, AreSeamsOf};
ghost use Rattle.table_check.specs.Verdicts.{IsVerdictOn, IsVerdictOver, IsVerdictBetween, KeepsBelow, IsFirstFailed};

use crate::Verdict;
use cell_lattice::Cell;
use face_tallies::{FaceTally, TallyRoom, keeps_faces, tally};
use iso_base::Memory;
use label_rules::Figures;
use path_rule::keeps_path;
use seam_traces::{FacetSeam, Traces, cell_seams};
use std::alloc::Global;
use table_file::Table;

/// Accepted exactly where each label keeps each rule; else the least label that fails a rule, and the least rule that
/// this label fails.
pub fn check<C: Cell<D>, const D: usize>(alloc: Global, table: &Table<D>) -> Result<Verdict, Memory>
    requires { table.now.kind ≡ C.KIND }
    ensures { IfOk result (IsVerdictOn table.now) }
{
    let _kind = table.kind();
    let seams = cell_seams::<C, D>(alloc)?;
    check_over::<C, D>(alloc, table, &seams)
}

/// The same with the rule of seams over these seams of the cell.
pub(crate) fn check_over<C: Cell<D>, const D: usize>(
    alloc: Global,
    table: &Table<D>,
    seams: &[FacetSeam],
) -> Result<Verdict, Memory>
    requires kind { table.now.kind ≡ C.KIND }
    requires seams { AreSeamsOf C.KIND D (seams_of seams.now) }
    ensures { IfOk result (IsVerdictOver (seams_of seams.now) table.now) }
{
    let figures = Figures::<D>::of::<C>();
    let traces = Traces::<C, D>::gather(alloc, table)?;
    judge(alloc, &figures, &traces, seams, table, 0, table.labels())
}

/// The verdict on the labels from `from` on and before `to`.
pub(crate) fn judge<C: Cell<D>, const D: usize>(
    alloc: Global,
    figures: &Figures<D>,
    traces: &Traces<C, D>,
    seams: &[FacetSeam],
    table: &Table<D>,
    from: u32,
    to: u32,
) -> Result<Verdict, Memory>
    requires cell { figures.now ≡ C.KIND }
    requires kind { table.now.kind ≡ C.KIND }
    requires seams { AreSeamsOf C.KIND D (seams_of seams.now) }
    requires traces { TellTable C.KIND D table.now traces.now }
    requires labels { to ≤ length table.now.entries }
    ensures { IfOk result (IsVerdictBetween (seams_of seams.now) table.now from to) }
{
    let mut room = TallyRoom::new(alloc);
    let mut tallies = Vec::new(alloc);
    for label in from..to {
        tally(table.tuples(label), &mut room, &mut tallies)?;
        if let Some(rule) = first_failed(figures, traces, seams, table, label, &tallies) {
            return Ok(Verdict::Refused { label, rule });
        }
    }
    Ok(Verdict::Accepted)
}

/// The least rule, from 1 to 6, that a label fails, and none where it keeps each. `seams` are those over which the rule
/// of seams is asked, `traces` those of the table, and `tallies` those of the label's tuples.
pub fn first_failed<C: Cell<D>, const D: usize>(
    figures: &Figures<D>,
    traces: &Traces<C, D>,
    seams: &[FacetSeam],
    table: &Table<D>,
    label: u32,
    tallies: &[FaceTally],
) -> Option<u8>
    requires cell { figures.now ≡ C.KIND }
    requires kind { table.now.kind ≡ C.KIND }
    requires seams { AreSeamsOf C.KIND D (seams_of seams.now) }
    requires label { label < length table.now.entries }
    requires tallies { AreTallies D (entry_of table.now label) tallies.now }
    requires traces { TellTable C.KIND D table.now traces.now }
    ensures { IsFirstFailed (seams_of seams.now) table.now label result }
{
    for number in 1..=6 {
        if !keeps_rule(figures, traces, seams, table, label, tallies, number) {
            return Some(number);
        }
    }
    None
}

/// Whether a label keeps a rule, where it keeps those before it.
fn keeps_rule<C: Cell<D>, const D: usize>(
    figures: &Figures<D>,
    traces: &Traces<C, D>,
    seams: &[FacetSeam],
    table: &Table<D>,
    label: u32,
    tallies: &[FaceTally],
    number: u8,
) -> bool
    requires cell { figures.now ≡ C.KIND }
    requires kind { table.now.kind ≡ C.KIND }
    requires seams { AreSeamsOf C.KIND D (seams_of seams.now) }
    requires label { label < length table.now.entries }
    requires tallies { AreTallies D (entry_of table.now label) tallies.now }
    requires traces { TellTable C.KIND D table.now traces.now }
    requires first { 1 ≤ number }
    requires last { number ≤ 6 }
    requires before { KeepsBelow (seams_of seams.now) table.now label number }
    ensures { result ≡ rule_over (seams_of seams.now) table.now label number }
{
    let _labels = table.labels();
    let tuples = table.tuples(label);
    match number {
        1 => figures.keeps_edges(label, tuples),
        2 => figures.keeps_off_facets(tuples),
        3 => keeps_faces(figures.facets(), tallies),
        4 => figures.keeps_side(label, tuples),
        5 => keeps_path(figures.facets(), figures.bipolar(label), tuples),
        _ => traces.keeps_seams(seams, label, tallies),
    }
}
