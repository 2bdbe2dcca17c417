//! The bodies of a file of version 2, which stand behind the index one behind the other, and the table that they make.

ghost use Rattle.std.specs.Prelude.{◌≡◌, ◌+◌, ◌*◌, ◌^◌, ◌<◌, ◌≤◌, length, OnOk, IfOk, IfErr};
ghost use Rattle.iso_formats.specs.TableFile2.{HasHeadOf, SpellsTable2, is_filled_count, stated};
ghost use Rattle.table_file.specs.Bodies.{HasRightCount, IsBodyRead, IsNextBody};
ghost use Rattle.table_file.specs.Reading.{HasBodyCause};

use crate::entries::{MOST_TUPLES, read_entry};
use crate::faults::TableFault;
use crate::heads::labels;
use crate::index::{index_end, read_index, u32_at, u64_at};
use crate::tables::Table;
use iso_model::Kind;
use std::alloc::Global;

/// The table behind its head of version 2. The index is judged before any memory is taken.
pub(crate) fn read_indexed<const D: usize>(
    alloc: Global,
    kind: Kind,
    bytes: &[u8],
) -> Result<Table<D>, TableFault>
    requires few { length bytes.now ≤ 2 ^ 31 }
    requires head { HasHeadOf 2 bytes.now kind D }
    ensures table { IfOk result (SpellsTable2 bytes.now) }
    ensures dimension { IfOk result (λ table. table.dimension ≡ D) }
    ensures cause { IfErr result (HasBodyCause kind D bytes.now) }
{
    let records = read_index::<D>(kind, bytes)?;
    let labels = labels(kind, D as u8);
    let mut entries = Vec::with_capacity(alloc, labels as usize)?;
    let mut place = index_end(records);
    let mut number = 0;
    for label in 0..labels {
        let filled = number < records && u32_at(bytes, 20 + 12 * number) == label;
        if filled {
            let entry = read_body::<D>(alloc, kind, bytes, records, number, place)?;
            place = place + 4 + entry.len() * D;
            number += 1;
            entries.push(entry)?;
        } else {
            entries.push(Vec::new(alloc))?;
        }
    }
    if place < bytes.len() {
        return Err(TableFault::Extra(place as u64));
    }
    Ok(Table::assemble(kind, entries))
}

/// The entry in the body of a record, which stands at `place`.
fn read_body<const D: usize>(
    alloc: Global,
    kind: Kind,
    bytes: &[u8],
    records: usize,
    number: usize,
    place: usize,
) -> Result<Vec<[u8; D]>, TableFault>
    requires few { length bytes.now ≤ 2 ^ 31 }
    requires records { records ≡ stated bytes.now }
    requires next { IsNextBody kind D bytes.now number place }
    ensures body { IfOk result (λ tuples. IsBodyRead kind D bytes.now number place tuples.items) }
    ensures cause { IfErr result (HasBodyCause kind D bytes.now) }
{
    judge_count::<D>(kind, bytes, records, number, place)?;
    read_entry::<D>(alloc, kind, bytes, place)
}

/// Judges the count of a body: before the last one it is the one that the offsets give, and that of the last one is
/// from 1 to 2^28.
fn judge_count<const D: usize>(
    kind: Kind,
    bytes: &[u8],
    records: usize,
    number: usize,
    place: usize,
) -> Result<(), TableFault>
    requires few { length bytes.now ≤ 2 ^ 31 }
    requires width { D ≤ 4 }
    requires records { records ≡ stated bytes.now }
    requires most { records ≤ 65536 }
    requires number { number < records }
    requires index { 20 + 12 * records ≤ length bytes.now }
    requires inside { place ≤ length bytes.now }
    requires next { IsNextBody kind D bytes.now number place }
    ensures right { OnOk result (HasRightCount kind D bytes.now number place) }
    ensures cause { IfErr result (HasBodyCause kind D bytes.now) }
{
    if bytes.len() < place + 4 {
        return Err(TableFault::Short(bytes.len() as u64));
    }
    let count = u32_at(bytes, place) as usize;
    let last = number + 1 == records;
    let right = if last {
        is_filled(count)
    } else {
        u64_at(bytes, 24 + 12 * (number + 1)) == (place + 4 + D * count) as u64
    };
    if right {
        Ok(())
    } else {
        Err(TableFault::Count(place as u64))
    }
}

/// There are from 1 to 2^28 tuples.
fn is_filled(count: usize) -> bool
    ensures { result ≡ is_filled_count count }
{
    1 <= count && count <= MOST_TUPLES
}
