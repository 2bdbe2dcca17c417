//! The words after the program's name.

use std::alloc::{AllocError, Global};
use std::io::ErrorKind;
use std::rt::Env;
use std::{env, io};

/// Why the words were not read.
#[derive(Drop)]
pub enum WordsFault {
    /// Memory was refused.
    Memory,
    /// They are no text, or the system does not give them.
    Unreadable,
}

impl WordsFault {
    /// The exit code where they are no text.
    pub const UNREADABLE: u8 = 15;
}

impl From<io::Error> for WordsFault {
    fn from(error: io::Error) -> WordsFault {
        if error.kind() == ErrorKind::OutOfMemory {
            WordsFault::Memory
        } else {
            WordsFault::Unreadable
        }
    }
}

impl From<AllocError> for WordsFault {
    fn from(_: AllocError) -> WordsFault {
        WordsFault::Memory
    }
}

/// The words after the program's name.
pub fn words<R: Env + AllocGlobal>(rt: &R, alloc: Global) -> Result<Vec<String>, WordsFault> {
    let words = env::args(rt)?.skip(1).collect(alloc)?;
    Ok(words)
}
