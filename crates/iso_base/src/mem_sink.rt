//! A sink in memory.

ghost use Rattle.std.specs.Prelude.{◌≡◌, ◌<◌, ◌≤◌, ◌++◌, [], length, take, Some, is_err, OnErr, IfOk};
ghost use Rattle.std.specs.Io.{WritesAtMost};
ghost use Rattle.std.specs.Io.KnownBytes.{WriteAppends};
ghost use Rattle.iso_base.specs.Faults.{CountsFaults};
ghost use Rattle.iso_base.specs.Calls.{after_call};
ghost use Rattle.iso_base.specs.InMemory.{new_sink, put_fails, put_count, after_put};

use crate::calls::Calls;
use crate::outside::{Failed, Memory, Sink};
use std::alloc::Global;
use std::marker::Model;

/// A sink in memory of a fixed size, which fails where it is told to.
///
/// Calls of `put` are numbered from 0, up to 2^64 - 1. A call fails whose number the sink was told to fail, or which has
/// a byte to put and no room for it. Each failure raises the count of faults by one, up to 2^64 - 1. Contracts see the
/// bytes that were put, the room for all bytes, how many of them a `put` takes at most, and the calls.
#[derive(Drop)]
pub struct MemSink {
    bytes: Vec<u8>,
    room: usize,
    step: usize,
    calls: Calls,
}

impl Model for MemSink {
    ghost use Rattle.std.specs.Prelude.{◌≤◌, length, vec_capacity};
    ghost use Rattle.iso_base.specs.InMemory.{SinkInMemory};

    ghost Value = { SinkInMemory };

    ghost view = { λ s. record { bytes = s.bytes.items; room = s.room; step = s.step; calls = s.calls } };

    ghost invariant = { λ s. (1 ≤ s.step) × (length s.bytes.items ≤ s.room) × (s.room ≤ vec_capacity s.bytes) };
}

impl MemSink {
    /// An empty sink with room for `room` bytes, all of whose memory is taken here. No call was made. Calls whose numbers
    /// are in `fail` are to fail, and a `put` takes at most `step` bytes, which is at least 1.
    pub fn new(alloc: Global, room: usize, fail: Vec<u64>, step: usize) -> Result<MemSink, Memory>
        requires { 1 ≤ step }
        ensures made { IfOk result (λ sink. sink ≡ new_sink room fail.items step) }

        // What it tells as a sink.
        ensures empty { IfOk result (λ sink. ⟦<MemSink as Sink>⟧.bytes sink ≡ Some []) }
        ensures no_faults { IfOk result (λ sink. ⟦<MemSink as Sink>⟧.faults sink ≡ 0) }
    {
        match Vec::with_capacity(alloc, room) {
            Ok(bytes) => Ok(MemSink {
                bytes,
                room,
                step,
                calls: Calls::new(fail),
            }),
            Err(_) => Err(Memory),
        }
    }

    /// The bytes that were put.
    pub fn bytes(&self) -> &[u8]
        ensures { result.now ≡ self.now.bytes }
    {
        self.bytes.as_slice()
    }
}

impl Sink for MemSink {
    ghost bytes = { λ s. Some s.bytes };

    ghost faults = { λ s. s.calls.faults };

    fn put(&mut self, buf: &[u8]) -> Result<usize, Failed>
        ensures faults { CountsFaults self.old.calls.faults self.new.calls.faults result }
        ensures bound { WritesAtMost result buf.now }
        ensures some { IfOk result (λ count. 0 < length buf.now → 0 < count) }
        ensures put { WriteAppends (Some self.old.bytes) (Some self.new.bytes) result buf.now }

        ensures fails { is_err result ≡ put_fails self.old buf.now }
        ensures count { IfOk result (λ count. count ≡ put_count self.old buf.now) }
        ensures after { IfOk result (λ count. self.new ≡ after_put self.old buf.now result count) }
        ensures failed { OnErr result (self.new ≡ record self.old { calls = after_call self.old.calls result }) }
    {
        if self.calls.start() {
            return Err(self.calls.fault());
        }
        let room = self.room - self.bytes.len();
        let count = buf.len().min(self.step).min(room);
        if count == 0 && !buf.is_empty() {
            return Err(self.calls.fault());
        }
        match self.bytes.extend_from_slice(&buf[..count]) {
            Ok(()) => Ok(count),
            Err(_) => unreachable!(),
        }
    }
}

#[cfg(test)]
mod tests {
    use super::*;
    use std::test::Fail;

    #[test]
    fn each_call_takes_bytes_or_fails(rt: HostRuntime) -> Result<(), Fail> {
        let fail = Vec::from_slice(rt.alloc(), &[1])?;
        let mut sink = MemSink::new(rt.alloc(), 5, fail, 2)?;
        // The piece, the bytes that were put after the call, and the count of a failure, or 0.
        let calls = [
            ("abc", "ab", 0),
            ("c", "ab", 1),
            ("c", "abc", 0),
            ("", "abc", 0),
            ("def", "abcde", 0),
            ("f", "abcde", 2),
            ("", "abcde", 0),
        ];
        for (number, (piece, bytes, faults)) in calls.into_iter().enumerate() {
            match sink.put(piece.as_bytes()) {
                Ok(_) => assert_eq!(rt; faults, 0, "call {number}"),
                Err(failed) => assert_eq!(rt; failed.count, faults, "call {number}"),
            }
            assert_eq!(rt; sink.bytes(), bytes.as_bytes(), "call {number}");
        }
        Ok(())
    }
}
