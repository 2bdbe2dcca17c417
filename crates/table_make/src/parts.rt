//! The generated tables in parts, each a thread of its own where there can be one.

ghost use Rattle.std.specs.Prelude.{◌≡◌, ◌+◌, ◌-◌, ◌^◌, ◌<◌, ◌≤◌, ◌++◌, IfOk};
ghost use Rattle.std.specs.Thread.{IsSync};
ghost use Rattle.iso_model.specs.Dimensions.{IsDimension};
ghost use Rattle.iso_model.specs.Entries.{IsHullTable};
ghost use Rattle.table_file.specs.Holding.{lists_of};
ghost use Rattle.table_make.specs.HullEntries.{AnswersPieces};

use crate::entries::{add_entry, hull_entries, labels};
use crate::generated::table_of;
use cell_lattice::Cell;
use iso_base::{Gate, Memory, part_start};
use std::alloc::Global;
use std::thread::{Threads, join};
use table_file::Table;

/// The answer of [`crate::make`], made in so many parts, from 1 to 64. Each passes the gate once, as it starts.
pub fn make_parts<R: Threads + Sync, C: Cell<D> + Sync, const D: usize, G: Gate + Sync>(
    rt: &R,
    alloc: Global,
    parts: u32,
    gate: &G,
) -> Result<Table<D>, Memory>
    requires some { 1 ≤ parts }
    requires few { parts ≤ 64 }
    ensures { IfOk result (λ table. (table.kind ≡ C.KIND) × (table.dimension ≡ D) × IsHullTable table) }
{
    let entries = pieces::<R, C, D, G>(rt, alloc, parts, 0, parts, gate)?;
    Ok(table_of::<C, D>(entries))
}

/// The entries of so many pieces from piece `low` on.
#[cycle(halves)]
fn pieces<R: Threads + Sync, C: Cell<D> + Sync, const D: usize, G: Gate + Sync>(
    rt: &R,
    alloc: Global,
    parts: u32,
    low: u32,
    count: u32,
    gate: &G,
) -> Result<Vec<Vec<[u8; D]>>, Memory>
    requires some { 1 ≤ count }
    requires pieces { low + count ≤ parts }
    requires few { parts ≤ 64 }
    ensures { AnswersPieces C.KIND D (2 ^ C.CORNERS) parts low count result }
{
    if count == 1 {
        gate.pass(low);
        return piece::<C, D>(alloc, parts, low);
    }
    let half = count / 2;
    let (left, right) = join(
        rt,
        || -> Result<Vec<Vec<[u8; D]>>, Memory>
            requires shared { IsSync R.row × IsSync C.row × IsSync G.row }
            requires pieces { (1 ≤ half) × (low + half ≤ parts) × (parts ≤ 64) }
            ensures { AnswersPieces C.KIND D (2 ^ C.CORNERS) parts low half result }
        { pieces::<R, C, D, G>(rt, alloc, parts, low, half, gate) },
        || -> Result<Vec<Vec<[u8; D]>>, Memory>
            requires shared { IsSync R.row × IsSync C.row × IsSync G.row }
            requires pieces { (half < count) × (low + count ≤ parts) × (parts ≤ 64) }
            ensures { AnswersPieces C.KIND D (2 ^ C.CORNERS) parts (low + half) (count - half) result }
        { pieces::<R, C, D, G>(rt, alloc, parts, low + half, count - half, gate) },
    );
    appended::<C, D>(left?, right?)
}

/// The entries of one piece.
fn piece<C: Cell<D>, const D: usize>(
    alloc: Global,
    parts: u32,
    piece: u32,
) -> Result<Vec<Vec<[u8; D]>>, Memory>
    requires piece { piece < parts }
    requires few { parts ≤ 64 }
    ensures { AnswersPieces C.KIND D (2 ^ C.CORNERS) parts piece 1 result }
{
    let all = labels::<C, D>();
    let from = part_start(all, parts, piece);
    let to = part_start(all, parts, piece + 1);
    hull_entries::<C, D>(alloc, from, to)
}

/// The entries of two runs of pieces in one list.
fn appended<C: Cell<D>, const D: usize>(
    mut left: Vec<Vec<[u8; D]>>,
    right: Vec<Vec<[u8; D]>>,
) -> Result<Vec<Vec<[u8; D]>>, Memory>
    ensures { IfOk result (λ all. lists_of all.items ≡ lists_of left.entry.items ++ lists_of right.entry.items) }
{
    for entry in right {
        add_entry(&mut left, entry)?;
    }
    Ok(left)
}
