//! Reading the bytes of a table, of version 1 or 2.

ghost use Rattle.std.specs.Prelude.{◌≡◌, ◌≤◌, ◌<◌, ◌^◌, length, IfOk, IfErr, IsOkUnless};
ghost use Rattle.iso_model.specs.Tables.{Table as TableValue};
ghost use Rattle.iso_formats.specs.TableFile.{SpellsTable, IsWholeTable};
ghost use Rattle.iso_formats.specs.TableFile2.{BeginsSomeHead, HasHeadOf, IsFileTooLong, IsTableFile, IsWholeFile, StopsInSomeHead};
ghost use Rattle.table_file.specs.Heads.{StopsInHead, version_number};
ghost use Rattle.table_file.specs.Reading.{table_in, HasOwnDimension, HasCause, HasFirstCause};

use crate::bodies::read_indexed;
use crate::entries::read_entry;
use crate::faults::TableFault;
use crate::heads::{Version, labels, read_head, version_of};
use crate::tables::{AnyTable, Table};
use iso_model::Kind;
use std::alloc::Global;

/// The number of bytes before the first entry.
const HEAD: usize = 16;

/// The table of which these are the bytes. Behind a head of sixteen bytes version 1 has for each label the number of
/// its tuples, in four bytes with the high one first and at most 2^28, and then the tuples; numbers of edges have one
/// byte. Version 2 has the number of labels whose entries are not empty, a record for each of them with the label in
/// four bytes and the offset of the entry in eight, and these entries.
pub fn decode(alloc: Global, bytes: &[u8]) -> Result<AnyTable, TableFault>
    requires { ¬ IsFileTooLong bytes.now }
    ensures table { IfOk result (λ table. IsTableFile bytes.now (table_in table)) }
    ensures same { (t : TableValue) → IsTableFile bytes.now t → IfOk result (λ table. table_in table ≡ t) }
    ensures dimension { IfOk result HasOwnDimension }
    ensures whole { IsWholeFile bytes.now → IsOkUnless result TableFault.Memory }
    ensures cause { IfErr result (HasCause bytes.now) }
{
    let version = version_of(bytes);
    let (kind, dimension) = match read_head(version, bytes) {
        Ok(row) => row,
        Err(place) => return Err(head_fault(bytes, place)),
    };
    match dimension {
        2 => Ok(AnyTable::T2(read_version(alloc, version, kind, bytes)?)),
        3 => Ok(AnyTable::T3(read_version(alloc, version, kind, bytes)?)),
        _ => Ok(AnyTable::T4(read_version(alloc, version, kind, bytes)?)),
    }
}

/// The table behind its head.
fn read_version<const D: usize>(
    alloc: Global,
    version: Version,
    kind: Kind,
    bytes: &[u8],
) -> Result<Table<D>, TableFault>
    requires few { ¬ IsFileTooLong bytes.now }
    requires head { HasHeadOf (version_number version) bytes.now kind D }
    ensures table { IfOk result (IsTableFile bytes.now) }
    ensures dimension { IfOk result (λ table. table.dimension ≡ D) }
    ensures whole { IsWholeFile bytes.now → IsOkUnless result TableFault.Memory }
    ensures cause { IfErr result (HasCause bytes.now) }
{
    match version {
        Version::One => read_table(alloc, kind, bytes),
        Version::Two => read_indexed(alloc, kind, bytes),
    }
}

/// The fault of bytes that stop at this place of a head.
fn head_fault(bytes: &[u8], place: usize) -> TableFault
    requires head { place < 16 }
    requires inside { place ≤ length bytes.now }
    requires begun { BeginsSomeHead bytes.now place }
    requires stopped { place < length bytes.now → StopsInSomeHead bytes.now place }
    ensures { HasCause bytes.now result }
{
    if place == bytes.len() {
        TableFault::Short(place as u64)
    } else if place < 8 {
        TableFault::Magic(place as u64)
    } else {
        TableFault::Kind(place as u64)
    }
}

/// The table behind its head of version 1.
fn read_table<const D: usize>(
    alloc: Global,
    kind: Kind,
    bytes: &[u8],
) -> Result<Table<D>, TableFault>
    requires few { length bytes.now ≤ 2 ^ 31 }
    requires head { HasHeadOf 1 bytes.now kind D }
    ensures table { IfOk result (SpellsTable bytes.now) }
    ensures dimension { IfOk result (λ table. table.dimension ≡ D) }
    ensures whole { IsWholeTable bytes.now → IsOkUnless result TableFault.Memory }
    ensures cause { IfErr result (HasFirstCause bytes.now) }
{
    let labels = labels(kind, D as u8);
    let mut entries = Vec::with_capacity(alloc, labels as usize)?;
    let mut place = HEAD;
    for _label in 0..labels {
        let entry = read_entry::<D>(alloc, kind, bytes, place)?;
        place = place + 4 + entry.len() * D;
        entries.push(entry)?;
    }
    if place < bytes.len() {
        return Err(TableFault::Extra(place as u64));
    }
    Ok(Table::assemble(kind, entries))
}
