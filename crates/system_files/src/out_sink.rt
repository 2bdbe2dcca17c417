//! Standard output as a sink.

ghost use Rattle.std.specs.Prelude.{None};

use crate::put::put_flushed;
use iso_base::{Failed, Sink};
use std::io;
use std::io::Printer;

/// Standard output, without a buffer of its own. It tells nothing of content.
#[derive(Drop)]
pub struct OutSink<'a, P: Print> {
    out: Printer<'a, P>,
    faults: u64,
}

impl<'a, P: Print> OutSink<'a, P> {
    /// The sink over what `rt` prints to.
    pub fn new(rt: &'a P) -> OutSink<'a, P> {
        OutSink {
            out: io::writer(rt),
            faults: 0,
        }
    }
}

impl<P: Print> Sink for OutSink<'_, P> {
    ghost bytes = { λ _. None };

    ghost faults = { λ s. s.faults };

    fn put(&mut self, buf: &[u8]) -> Result<usize, Failed> {
        put_flushed(&mut self.out, &mut self.faults, buf)
    }
}

#[cfg(test)]
mod tests {
    use super::*;
    use std::cell::Cell;
    use std::fmt::Display;
    use std::io::{Error, ErrorKind};

    // Is interrupted at first, then takes a byte, then none, and then fails.
    #[derive(Drop)]
    struct Slow {
        calls: Cell<u8>,
    }

    impl Print for Slow {
        fn print<D: Display + Drop>(&self, _value: D) -> io::Result<()> {
            Err(Error::from(ErrorKind::Unsupported))
        }

        fn println<D: Display + Drop>(&self, _value: D) -> io::Result<()> {
            Err(Error::from(ErrorKind::Unsupported))
        }

        fn write_all(&self, _bytes: &[u8]) -> io::Result<()> {
            Err(Error::from(ErrorKind::Unsupported))
        }

        fn write_some(&self, bytes: &[u8]) -> io::Result<usize> {
            let call = self.calls.get();
            self.calls.set(call.saturating_add(1));
            match call {
                0 => Err(Error::from(ErrorKind::Interrupted)),
                1 => Ok(bytes.len().min(1)),
                2 => Ok(0),
                _ => Err(Error::from(ErrorKind::BrokenPipe)),
            }
        }
    }

    #[test]
    fn bytes_are_written_or_a_fault_is_counted(rt: HostRuntime) {
        let slow = Slow {
            calls: Cell::new(0),
        };
        let mut out = OutSink::new(&slow);
        assert_eq!(rt; out.put(b"ab"), Ok(1));
        assert_eq!(rt; out.put(b"b"), Err(Failed { count: 1 }));
        assert_eq!(rt; out.put(b"b"), Err(Failed { count: 2 }));
    }
}
