//! The check in parts, each a thread of its own where there can be one.

ghost use Rattle.std.specs.Prelude.{◌≡◌, ◌+◌, ◌-◌, ◌<◌, ◌≤◌, length, IfOk, IfErr};
ghost use Rattle.std.specs.Thread.{IsSync};
ghost use Rattle.iso_base.specs.Parts.{start_of};
ghost use Rattle.seam_traces.specs.Kept.{TellTable};
ghost use Rattle.seam_traces.specs.SeamLists.{seams_of};
ghost use Rattle.table_check.specs.Handed.{HandsBack};
ghost use Rattle.table_check.specs.Verdicts.{IsVerdictOn};
ghost use Rattle.table_check.specs.Pieces.{AreReady, GathersPieces, JudgesPieces, first_refused};

use crate::certified::by_verdict;
use crate::labels::judge;
use crate::{CertifyFault, Checked, Verdict};
use cell_lattice::Cell;
use iso_base::{Gate, Memory, part_start};
use label_rules::Figures;
use seam_traces::{FacetSeam, RunTraces, Traces, cell_seams};
use std::alloc::Global;
use std::thread::{Threads, join};
use table_file::Table;

/// The answer of [`crate::check`], found in so many parts, from 1 to 64. Each passes the gate once, as it starts.
pub fn check_parts<R: Threads + Sync, C: Cell<D> + Sync, const D: usize, G: Gate + Sync>(
    rt: &R,
    alloc: Global,
    table: &Table<D>,
    parts: u32,
    gate: &G,
) -> Result<Verdict, Memory>
    requires kind { table.now.kind ≡ C.KIND }
    requires some { 1 ≤ parts }
    requires few { parts ≤ 64 }
    ensures { IfOk result (IsVerdictOn table.now) }
{
    let _kind = table.kind();
    let seams = cell_seams::<C, D>(alloc)?;
    let figures = Figures::<D>::of::<C>();
    let traces = table_traces::<R, C, D, G>(rt, alloc, table, parts, gate)?;
    judge_parts::<R, C, D>(rt, alloc, &figures, &traces, &seams, table, parts, 0, parts)
}

/// The answer of [`crate::certify`], found in so many parts, from 1 to 64. Each passes the gate once, as it starts.
pub fn certify_parts<R: Threads + Sync, C: Cell<D> + Sync, const D: usize, G: Gate + Sync>(
    rt: &R,
    alloc: Global,
    table: Table<D>,
    parts: u32,
    gate: &G,
) -> Result<Checked<C, D>, CertifyFault<D>>
    requires kind { table.kind ≡ C.KIND }
    requires some { 1 ≤ parts }
    requires few { parts ≤ 64 }
    ensures checked { IfOk result (λ checked. checked ≡ table.entry) }
    ensures handed_back { IfErr result (HandsBack table.entry) }
{
    let verdict = check_parts::<R, C, D, G>(rt, alloc, &table, parts, gate);
    by_verdict(table, verdict)
}

/// The traces of the table, found in so many parts.
fn table_traces<R: Threads + Sync, C: Cell<D> + Sync, const D: usize, G: Gate + Sync>(
    rt: &R,
    alloc: Global,
    table: &Table<D>,
    parts: u32,
    gate: &G,
) -> Result<Traces<C, D>, Memory>
    requires kind { table.now.kind ≡ C.KIND }
    requires some { 1 ≤ parts }
    requires few { parts ≤ 64 }
    ensures { IfOk result (λ traces. TellTable C.KIND D table.now traces) }
{
    let _kind = table.kind();
    let gathered = gather_parts::<R, C, D, G>(rt, alloc, table, parts, 0, parts, gate)?;
    Ok(Traces::of_run(gathered))
}

/// The traces of the labels of so many pieces from piece `low` on. With this each piece starts, and passes the gate.
#[cycle(gathered_halves)]
fn gather_parts<R: Threads + Sync, C: Cell<D> + Sync, const D: usize, G: Gate + Sync>(
    rt: &R,
    alloc: Global,
    table: &Table<D>,
    parts: u32,
    low: u32,
    count: u32,
    gate: &G,
) -> Result<RunTraces, Memory>
    requires kind { table.now.kind ≡ C.KIND }
    requires some { 1 ≤ count }
    requires pieces { low + count ≤ parts }
    requires few { parts ≤ 64 }
    ensures { GathersPieces C.KIND D table.now parts low count result }
{
    if count == 1 {
        gate.pass(low);
        return gather_piece::<C, D>(alloc, table, parts, low);
    }
    let half = count / 2;
    let (left, right) = join(
        rt,
        || -> Result<RunTraces, Memory>
            requires shared { IsSync R.row × IsSync C.row × IsSync G.row }
            requires kind { table.now.kind ≡ C.KIND }
            requires pieces { (1 ≤ half) × (low + half ≤ parts) × (parts ≤ 64) }
            ensures { GathersPieces C.KIND D table.entry.now parts low half result }
        { gather_parts::<R, C, D, G>(rt, alloc, table, parts, low, half, gate) },
        || -> Result<RunTraces, Memory>
            requires shared { IsSync R.row × IsSync C.row × IsSync G.row }
            requires kind { table.now.kind ≡ C.KIND }
            requires pieces { (half < count) × (low + count ≤ parts) × (parts ≤ 64) }
            ensures { GathersPieces C.KIND D table.entry.now parts (low + half) (count - half) result }
        { gather_parts::<R, C, D, G>(rt, alloc, table, parts, low + half, count - half, gate) },
    );
    Ok(left?.followed_by::<C, D>(right?))
}

/// The traces of the labels of one piece.
fn gather_piece<C: Cell<D>, const D: usize>(
    alloc: Global,
    table: &Table<D>,
    parts: u32,
    piece: u32,
) -> Result<RunTraces, Memory>
    requires kind { table.now.kind ≡ C.KIND }
    requires piece { piece < parts }
    requires few { parts ≤ 64 }
    ensures { GathersPieces C.KIND D table.now parts piece 1 result }
{
    let (from, to) = labels_of_piece(table, parts, piece);
    RunTraces::gather::<C, D>(alloc, table, from, to)
}

/// The verdict on the labels of so many pieces from piece `low` on.
#[cycle(halves)]
fn judge_parts<R: Threads + Sync, C: Cell<D> + Sync, const D: usize>(
    rt: &R,
    alloc: Global,
    figures: &Figures<D>,
    traces: &Traces<C, D>,
    seams: &[FacetSeam],
    table: &Table<D>,
    parts: u32,
    low: u32,
    count: u32,
) -> Result<Verdict, Memory>
    requires some { 1 ≤ count }
    requires pieces { low + count ≤ parts }
    requires few { parts ≤ 64 }
    requires ready { AreReady C.KIND D table.now figures.now traces.now (seams_of seams.now) }
    ensures { JudgesPieces (seams_of seams.now) table.now parts low count result }
{
    if count == 1 {
        return judge_piece(alloc, figures, traces, seams, table, parts, low);
    }
    let half = count / 2;
    let (left, right) = join(
        rt,
        || -> Result<Verdict, Memory>
            requires shared { IsSync R.row × IsSync C.row }
            requires pieces { (1 ≤ half) × (low + half ≤ parts) × (parts ≤ 64) }
            requires ready { AreReady C.KIND D table.now figures.now traces.now (seams_of seams.now) }
            ensures { JudgesPieces (seams_of seams.entry.now) table.entry.now parts low half result }
        { judge_parts::<R, C, D>(rt, alloc, figures, traces, seams, table, parts, low, half) },
        || -> Result<Verdict, Memory>
            requires shared { IsSync R.row × IsSync C.row }
            requires pieces { (half < count) × (low + count ≤ parts) × (parts ≤ 64) }
            requires ready { AreReady C.KIND D table.now figures.now traces.now (seams_of seams.now) }
            ensures { JudgesPieces (seams_of seams.entry.now) table.entry.now parts (low + half) (count - half) result }
        {
            judge_parts::<R, C, D>(
                rt,
                alloc,
                figures,
                traces,
                seams,
                table,
                parts,
                low + half,
                count - half,
            )
        },
    );
    Ok(first_refusal(left?, right?))
}

/// The verdict on the labels of one piece.
fn judge_piece<C: Cell<D>, const D: usize>(
    alloc: Global,
    figures: &Figures<D>,
    traces: &Traces<C, D>,
    seams: &[FacetSeam],
    table: &Table<D>,
    parts: u32,
    piece: u32,
) -> Result<Verdict, Memory>
    requires piece { piece < parts }
    requires few { parts ≤ 64 }
    requires ready { AreReady C.KIND D table.now figures.now traces.now (seams_of seams.now) }
    ensures { JudgesPieces (seams_of seams.now) table.now parts piece 1 result }
{
    let (from, to) = labels_of_piece(table, parts, piece);
    judge(alloc, figures, traces, seams, table, from, to)
}

/// The labels of a piece: those from the first number on and before the second.
fn labels_of_piece<const D: usize>(table: &Table<D>, parts: u32, piece: u32) -> (u32, u32)
    requires piece { piece < parts }
    requires few { parts ≤ 64 }
    ensures from { result.0 ≡ start_of (length table.now.entries) parts piece }
    ensures to { result.1 ≡ start_of (length table.now.entries) parts (piece + 1) }
    ensures run { result.0 ≤ result.1 }
    ensures labels { result.1 ≤ length table.now.entries }
{
    let labels = table.labels();
    let from = part_start(labels, parts, piece);
    let to = part_start(labels, parts, piece + 1);
    (from, to)
}

/// The verdict on two runs of labels, of which the second begins where the first ends.
fn first_refusal(left: Verdict, right: Verdict) -> Verdict
    ensures { result ≡ first_refused left right }
{
    match left {
        Verdict::Accepted => right,
        Verdict::Refused { .. } => left,
    }
}
