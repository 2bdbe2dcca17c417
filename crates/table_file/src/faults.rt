//! Why bytes are no table.

ghost use Rattle.std.specs.Prelude.{◌≡◌};
ghost use Rattle.table_file.specs.declared.faults.TableFault.TheVariants.{Memory as OutOfMemory};

use std::alloc::{AllocError, AllocFailed};
use thiserror::Error;

/// Why bytes are not those of a table. Places are counted in bytes from 0.
#[derive(Clone, Copy, Debug, PartialEq, Eq, Drop, Error)]
pub enum TableFault {
    /// Among the first eight bytes this is the first at which no head goes on.
    #[error("no table file: byte {0}")]
    Magic(u64),
    /// Among the next eight bytes, which name the kind, this is the first at which no head goes on.
    #[error("no kind of table: byte {0}")]
    Kind(u64),
    /// The byte is in a tuple, and is not the number of an edge.
    #[error("no edge number: byte {0}")]
    EdgeNumber(u64),
    /// The bytes end here, or in version 1 they have a count of more than 2^28 tuples. The place is always the number of
    /// the bytes.
    #[error("ends after {0} bytes")]
    Short(u64),
    /// A whole table ends just before this byte.
    #[error("goes on at byte {0}")]
    Extra(u64),
    /// In version 2 the number of records, a label or an offset begins here, and is wrong.
    #[error("wrong index: byte {0}")]
    Index(u64),
    /// In version 2 the count of a body begins here, and is not the one that the offsets give, or none from 1 to 2^28.
    #[error("wrong count: byte {0}")]
    Count(u64),
    /// Memory was refused.
    #[error("out of memory")]
    Memory,
}

impl From<AllocError> for TableFault {
    ghost from_gives = { λ _ fault. fault ≡ OutOfMemory };

    fn from(_error: AllocError) -> TableFault {
        TableFault::Memory
    }
}

impl<T: Drop> From<AllocFailed<T>> for TableFault {
    ghost from_gives = { λ _ fault. fault ≡ OutOfMemory };

    fn from(_error: AllocFailed<T>) -> TableFault {
        TableFault::Memory
    }
}
