//! The entry of one label.

ghost use Rattle.std.specs.Prelude.{◌≡◌, ℕ, ◌+◌, ◌*◌, ◌^◌, ◌<◌, ◌≤◌, length, take, slice_index, All, IfSome, IfNone, IfOk, IfErr};
ghost use Rattle.iso_model.specs.Cells.{HasDimension, edge_count};
ghost use Rattle.table_file.specs.HeldEntries.{BeginsWithCount, IsEntryAt, IsEntryFault};

use crate::faults::TableFault;
use crate::heads::edges;
use iso_model::Kind;
use std::alloc::Global;

/// The greatest number of tuples of an entry.
pub(crate) const MOST_TUPLES: usize = 1 << 28;

/// The number of tuples with which the bytes begin, four bytes with the high one first.
fn count_of(bytes: &[u8]) -> Option<usize>
    ensures count { IfSome result (λ count. BeginsWithCount bytes.now count) }
    ensures none { IfNone result ((count : ℕ) → ¬ BeginsWithCount bytes.now count) }
{
    match bytes {
        [first, second, third, fourth, ..] => {
            let count = u32::from_be_bytes([*first, *second, *third, *fourth]) as usize;
            if count <= MOST_TUPLES {
                Some(count)
            } else {
                None
            }
        }
        _ => None,
    }
}

/// The first of the bytes that is not below `edges`.
pub(crate) fn first_wrong(bytes: &[u8], edges: u8) -> Option<usize>
    ensures inside { IfSome result (λ place. place < length bytes.now) }
    ensures before { IfSome result (λ place. All (λ e. e < edges) (take place bytes.now)) }
    ensures wrong { IfSome result (λ place. edges ≤ slice_index bytes.now place) }
    ensures none { IfNone result (All (λ e. e < edges) bytes.now) }
{
    bytes.iter().position(|edge| *edge >= edges)
}

/// The entry at `place`. Each of its bytes is looked at once before they are copied.
pub(crate) fn read_entry<const D: usize>(
    alloc: Global,
    kind: Kind,
    bytes: &[u8],
    place: usize,
) -> Result<Vec<[u8; D]>, TableFault>
    requires fits { HasDimension kind D }
    requires few { length bytes.now ≤ 2 ^ 31 }
    requires inside { place ≤ length bytes.now }
    ensures entry { IfOk result (λ tuples. IsEntryAt kind D bytes.now place tuples.items) }
    ensures fault { IfErr result (IsEntryFault kind D bytes.now place) }
{
    let Some(count) = count_of(&bytes[place..]) else {
        return Err(TableFault::Short(bytes.len() as u64));
    };
    let rest = &bytes[place + 4..];
    let size = count * D;
    let tuples = &rest[..size.min(rest.len())];
    if let Some(wrong) = first_wrong(tuples, edges(kind, D as u8)) {
        return Err(TableFault::EdgeNumber((place + 4 + wrong) as u64));
    }
    if rest.len() < size {
        return Err(TableFault::Short(bytes.len() as u64));
    }
    let (tuples, _) = tuples.as_chunks::<D>();
    Ok(Vec::from_slice(alloc, tuples)?)
}
