//! Writing the bytes of a table.

ghost use Rattle.std.specs.Prelude.{◌≡◌, ◌++◌, length, IfOk, OnOk};
ghost use Rattle.iso_formats.specs.TableFile.{table_bytes};

use crate::heads::{Version, head};
use crate::tables::Table;
use iso_base::Memory;
use std::alloc::Global;

/// The bytes of a table, which [`decode`](crate::decode) reads.
pub fn encode<const D: usize>(alloc: Global, table: &Table<D>) -> Result<Vec<u8>, Memory>
    ensures { IfOk result (λ bytes. bytes.items ≡ table_bytes table.now) }
{
    let Ok(mut bytes) = Vec::with_capacity(alloc, length_of(table)) else {
        return Err(Memory);
    };
    append(&mut bytes, &head(Version::One, table.kind(), D as u8))?;
    for label in 0..table.labels() {
        let tuples = table.tuples(label);
        append(&mut bytes, &(tuples.len() as u32).to_be_bytes())?;
        append(&mut bytes, tuples.as_flattened())?;
    }
    Ok(bytes)
}

/// How many bytes a table has.
fn length_of<const D: usize>(table: &Table<D>) -> usize
    ensures { result ≡ length (table_bytes table.now) }
{
    let mut length = 16;
    for label in 0..table.labels() {
        length = length + 4 + table.tuples(label).len() * D;
    }
    length
}

pub(crate) fn append(bytes: &mut Vec<u8>, more: &[u8]) -> Result<(), Memory>
    ensures { OnOk result (bytes.new.items ≡ bytes.old.items ++ more.now) }
{
    match bytes.extend_from_slice(more) {
        Ok(()) => Ok(()),
        Err(_) => Err(Memory),
    }
}
