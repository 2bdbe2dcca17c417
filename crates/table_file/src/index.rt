//! The index of a file of version 2: the number of its records, and of each record the label and the offset.

ghost use Rattle.std.specs.Prelude.{◌≡◌, ◌+◌, ◌*◌, ◌^◌, ◌<◌, ◌≤◌, length, OnOk, IfErr, IfOk};
ghost use Rattle.std.specs.Int.{w32, w64};
ghost use Rattle.iso_model.specs.Cells.{label_count};
ghost use Rattle.iso_formats.specs.TableFile2.{HasHeadOf, NoneFailsBefore, has_room_for_body, index_end as end_of_index, label_at, number_at, offset_at, stated};
ghost use Rattle.table_file.specs.Reading.{HasBodyCause};

use crate::entries::MOST_TUPLES;
use crate::faults::TableFault;
use crate::heads::labels;
use iso_model::Kind;

/// The number in four bytes, the high one first.
pub(crate) fn u32_at(bytes: &[u8], place: usize) -> u32
    requires { place + 4 ≤ length bytes.now }
    ensures { result ≡ number_at w32 bytes.now place }
{
    u32::from_be_bytes([
        bytes[place],
        bytes[place + 1],
        bytes[place + 2],
        bytes[place + 3],
    ])
}

/// The number in eight bytes, the high one first.
pub(crate) fn u64_at(bytes: &[u8], place: usize) -> u64
    requires { place + 8 ≤ length bytes.now }
    ensures { result ≡ number_at w64 bytes.now place }
{
    u64::from_be_bytes([
        bytes[place],
        bytes[place + 1],
        bytes[place + 2],
        bytes[place + 3],
        bytes[place + 4],
        bytes[place + 5],
        bytes[place + 6],
        bytes[place + 7],
    ])
}

/// Where the index of so many records ends.
pub(crate) fn index_end(records: usize) -> usize
    requires { records ≤ 65536 }
    ensures { result ≡ end_of_index records }
{
    20 + 12 * records
}

/// The number of records of a right index. Nothing behind the index is looked at.
pub(crate) fn read_index<const D: usize>(kind: Kind, bytes: &[u8]) -> Result<usize, TableFault>
    requires few { length bytes.now ≤ 2 ^ 31 }
    requires head { HasHeadOf 2 bytes.now kind D }
    ensures stated { IfOk result (λ records. records ≡ stated bytes.now) }
    ensures labels { IfOk result (λ records. records ≤ label_count kind D) }
    ensures inside { IfOk result (λ records. end_of_index records ≤ length bytes.now) }
    ensures right { OnOk result (NoneFailsBefore kind D bytes.now (end_of_index (stated bytes.now))) }
    ensures cause { IfErr result (HasBodyCause kind D bytes.now) }
{
    let records = read_record_count::<D>(kind, bytes)?;
    for number in 0..records {
        judge_label::<D>(kind, bytes, number)?;
        judge_offset::<D>(kind, bytes, records, number)?;
    }
    Ok(records)
}

/// The number of records, which is at most that of labels.
fn read_record_count<const D: usize>(kind: Kind, bytes: &[u8]) -> Result<usize, TableFault>
    requires head { HasHeadOf 2 bytes.now kind D }
    ensures stated { IfOk result (λ records. records ≡ stated bytes.now) }
    ensures labels { IfOk result (λ records. records ≤ label_count kind D) }
    ensures inside { OnOk result (20 ≤ length bytes.now) }
    ensures right { OnOk result (NoneFailsBefore kind D bytes.now 20) }
    ensures cause { IfErr result (HasBodyCause kind D bytes.now) }
{
    if bytes.len() < 20 {
        return Err(TableFault::Short(bytes.len() as u64));
    }
    let records = u32_at(bytes, 16);
    if records > labels(kind, D as u8) {
        return Err(TableFault::Index(16));
    }
    Ok(records as usize)
}

/// Judges the label of a record: it is above the one before, and is one.
fn judge_label<const D: usize>(kind: Kind, bytes: &[u8], number: usize) -> Result<(), TableFault>
    requires few { length bytes.now ≤ 2 ^ 31 }
    requires head { HasHeadOf 2 bytes.now kind D }
    requires number { number < stated bytes.now }
    requires inside { 20 + 12 * number ≤ length bytes.now }
    requires before { NoneFailsBefore kind D bytes.now (20 + 12 * number) }
    ensures inside { OnOk result (24 + 12 * number ≤ length bytes.now) }
    ensures right { OnOk result (NoneFailsBefore kind D bytes.now (24 + 12 * number)) }
    ensures cause { IfErr result (HasBodyCause kind D bytes.now) }
{
    let place = 20 + 12 * number;
    if bytes.len() < place + 4 {
        return Err(TableFault::Short(bytes.len() as u64));
    }
    let label = u32_at(bytes, place);
    let ascends = number == 0 || u32_at(bytes, place - 12) < label;
    if ascends && label < labels(kind, D as u8) {
        Ok(())
    } else {
        Err(TableFault::Index(place as u64))
    }
}

/// Judges the offset of a record: the first is the end of the index, and a later one leaves room for the body before.
fn judge_offset<const D: usize>(
    kind: Kind,
    bytes: &[u8],
    records: usize,
    number: usize,
) -> Result<(), TableFault>
    requires few { length bytes.now ≤ 2 ^ 31 }
    requires head { HasHeadOf 2 bytes.now kind D }
    requires records { records ≡ stated bytes.now }
    requires labels { records ≤ 65536 }
    requires number { number < records }
    requires inside { 24 + 12 * number ≤ length bytes.now }
    requires before { NoneFailsBefore kind D bytes.now (24 + 12 * number) }
    ensures inside { OnOk result (20 + 12 * (number + 1) ≤ length bytes.now) }
    ensures right { OnOk result (NoneFailsBefore kind D bytes.now (20 + 12 * (number + 1))) }
    ensures cause { IfErr result (HasBodyCause kind D bytes.now) }
{
    let place = 24 + 12 * number;
    if bytes.len() < place + 8 {
        return Err(TableFault::Short(bytes.len() as u64));
    }
    let offset = u64_at(bytes, place);
    let right = if number == 0 {
        offset == index_end(records) as u64
    } else {
        has_room::<D>(u64_at(bytes, place - 12), offset)
    };
    if right {
        Ok(())
    } else {
        Err(TableFault::Index(place as u64))
    }
}

/// A body of 1 to 2^28 tuples stands between the offsets.
fn has_room<const D: usize>(here: u64, next: u64) -> bool
    requires some { 2 ≤ D }
    requires few { D ≤ 4 }
    ensures { result ≡ has_room_for_body D here next }
{
    if next < here {
        return false;
    }
    let room = next - here;
    let width = D as u64;
    4 + width <= room && room <= 4 + width * MOST_TUPLES as u64 && (room - 4) % width == 0
}
