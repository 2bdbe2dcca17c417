//! Writing the bytes of a table in version 2, with an index and without its empty entries.

ghost use Rattle.std.specs.Prelude.{◌≡◌, ◌*◌, ◌++◌, ◌^◌, ◌≤◌, flat_map, length, IfOk, OnOk};
ghost use Rattle.iso_formats.specs.TableFile.{big_endian};
ghost use Rattle.iso_formats.specs.TableFile2.{body_bytes, filled_count, index_bytes, record_bytes, table_bytes2};
ghost use Rattle.iso_model.specs.Cells.{HasDimension};
ghost use Rattle.iso_model.specs.Tables.{IsEntry};

use crate::heads::{Version, head};
use crate::index::index_end;
use crate::tables::Table;
use crate::writing::append;
use iso_base::Memory;
use iso_model::Kind;
use std::alloc::Global;

/// How much of a table stands in a file of version 2.
struct Extent {
    /// How many labels have entries that are not empty.
    records: usize,
    /// How many bytes their bodies have.
    bodies: usize,
}

/// The bytes of a table in version 2, which [`decode`](crate::decode) reads: an index of the labels whose entries are
/// not empty, and these entries.
pub fn encode2<const D: usize>(alloc: Global, table: &Table<D>) -> Result<Vec<u8>, Memory>
    ensures { IfOk result (λ bytes. bytes.items ≡ table_bytes2 table.now) }
{
    let Extent { records, bodies } = measure(table);
    let Ok(mut bytes) = Vec::with_capacity(alloc, index_end(records) + bodies) else {
        return Err(Memory);
    };
    append(&mut bytes, &head(Version::Two, table.kind(), D as u8))?;
    append(&mut bytes, &(records as u32).to_be_bytes())?;
    append_index(&mut bytes, table, index_end(records) as u64)?;
    append_bodies(&mut bytes, table)?;
    Ok(bytes)
}

/// How many bytes the body of an entry has.
fn body_length<const D: usize>(kind: Kind, tuples: &[[u8; D]]) -> usize
    requires fits { HasDimension kind D }
    requires entry { IsEntry kind D tuples.now }
    ensures length { result ≡ length (body_bytes tuples.now) }
    ensures few { result ≤ 2 ^ 31 }
{
    if tuples.is_empty() {
        0
    } else {
        4 + tuples.len() * D
    }
}

/// How many labels have entries that are not empty, and how many bytes their bodies have.
fn measure<const D: usize>(table: &Table<D>) -> Extent
    ensures records { result.records ≡ filled_count table.now.entries }
    ensures few_records { result.records ≤ 65536 }
    ensures bodies { result.bodies ≡ length (flat_map body_bytes table.now.entries) }
    ensures few_bytes { result.bodies ≤ 65536 * 2 ^ 31 }
{
    let mut records = 0;
    let mut bodies = 0;
    for label in 0..table.labels() {
        let tuples = table.tuples(label);
        let filled = !tuples.is_empty();
        if filled {
            records += 1;
        }
        bodies += body_length(table.kind(), tuples);
    }
    Extent { records, bodies }
}

/// Appends the records of the labels whose entries are not empty, the first of whose bodies stands at `place`.
fn append_index<const D: usize>(
    bytes: &mut Vec<u8>,
    table: &Table<D>,
    place: u64,
) -> Result<(), Memory>
    requires { place ≤ 2 ^ 20 }
    ensures { OnOk result (bytes.new.items ≡ bytes.old.items ++ index_bytes 0 place table.now.entries) }
{
    let mut next = place;
    for label in 0..table.labels() {
        let tuples = table.tuples(label);
        append_record(bytes, label, next, tuples)?;
        next += body_length(table.kind(), tuples) as u64;
    }
    Ok(())
}

/// Appends the record of a label whose body stands at `place`; an empty entry has none.
fn append_record<const D: usize>(
    bytes: &mut Vec<u8>,
    label: u32,
    place: u64,
    tuples: &[[u8; D]],
) -> Result<(), Memory>
    ensures { OnOk result (bytes.new.items ≡ bytes.old.items ++ record_bytes label place tuples.now) }
{
    if tuples.is_empty() {
        return Ok(());
    }
    append(bytes, &record(label, place))?;
    Ok(())
}

/// The record of a label whose body stands at `place`: the label in four bytes and the place in eight.
fn record(label: u32, place: u64) -> [u8; 12]
    ensures { result ≡ big_endian 4 label ++ big_endian 8 place }
{
    let [l0, l1, l2, l3] = label.to_be_bytes();
    let [p0, p1, p2, p3, p4, p5, p6, p7] = place.to_be_bytes();
    [l0, l1, l2, l3, p0, p1, p2, p3, p4, p5, p6, p7]
}

/// Appends the bodies.
fn append_bodies<const D: usize>(bytes: &mut Vec<u8>, table: &Table<D>) -> Result<(), Memory>
    ensures { OnOk result (bytes.new.items ≡ bytes.old.items ++ flat_map body_bytes table.now.entries) }
{
    for label in 0..table.labels() {
        append_body(bytes, table.kind(), table.tuples(label))?;
    }
    Ok(())
}

/// Appends the body of an entry; an empty entry has none.
fn append_body<const D: usize>(
    bytes: &mut Vec<u8>,
    kind: Kind,
    tuples: &[[u8; D]],
) -> Result<(), Memory>
    requires { IsEntry kind D tuples.now }
    ensures { OnOk result (bytes.new.items ≡ bytes.old.items ++ body_bytes tuples.now) }
{
    if tuples.is_empty() {
        return Ok(());
    }
    append(bytes, &(tuples.len() as u32).to_be_bytes())?;
    append(bytes, tuples.as_flattened())
}
