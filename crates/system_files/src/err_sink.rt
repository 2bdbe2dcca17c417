//! Standard error as a sink.

ghost use Rattle.std.specs.Prelude.{None};

use crate::put::put_flushed;
use iso_base::{Failed, Sink, put_all};
use std::io::Stderr;
use std::process::ExitCode;

/// Standard error, without a buffer of its own. It tells nothing of content.
#[derive(Drop)]
pub struct ErrSink {
    err: Stderr,
    faults: u64,
}

impl ErrSink {
    /// The sink over standard error.
    pub fn new(err: Stderr) -> ErrSink {
        ErrSink { err, faults: 0 }
    }

    /// Puts a line, and gives this exit code. A failure to put it changes no code.
    pub fn end(&mut self, line: &str, code: u8) -> ExitCode {
        let _ = put_all(self, line.as_bytes());
        ExitCode::from(code)
    }
}

impl Sink for ErrSink {
    ghost bytes = { λ _. None };

    ghost faults = { λ s. s.faults };

    fn put(&mut self, buf: &[u8]) -> Result<usize, Failed> {
        put_flushed(&mut self.err, &mut self.faults, buf)
    }
}

#[cfg(test)]
mod tests {
    use super::*;

    #[test]
    fn a_line_is_written(rt: HostRuntime) {
        let mut err = ErrSink::new(rt.stderr());
        assert_eq!(rt; err.put(b""), Ok(0));
        assert_eq!(rt; err.put(b"\n"), Ok(1));
    }
}
