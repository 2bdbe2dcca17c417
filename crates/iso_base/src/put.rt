//! Putting a whole piece.

ghost use Rattle.std.specs.Prelude.{OnOk, OnErr};
ghost use Rattle.std.specs.Io.KnownBytes.{Appends};
ghost use Rattle.iso_base.specs.Faults.{CountsFaults};
ghost use Rattle.iso_base.specs.Fronts.{AppendsFront};

use crate::outside::{Failed, Sink};

/// Puts all of `bytes`, in as many calls as the sink needs. After a failure a front of them was put.
pub fn put_all<O: Sink>(out: &mut O, bytes: &[u8]) -> Result<(), Failed>
    ensures faults { CountsFaults (O.faults out.old) (O.faults out.new) result }
    ensures all { OnOk result (Appends (O.bytes out.old) (O.bytes out.new) bytes.now) }
    ensures front { OnErr result (AppendsFront (O.bytes out.old) (O.bytes out.new) bytes.now) }
{
    let mut done = 0;
    while done < bytes.len() {
        done += out.put(&bytes[done..])?;
    }
    Ok(())
}

#[cfg(test)]
mod tests {
    use super::*;
    use crate::mem_sink::MemSink;
    use std::test::Fail;

    #[test]
    fn all_of_a_piece_is_put_or_a_front(rt: HostRuntime) -> Result<(), Fail> {
        // The call that is to fail, the room, the count of a failure, or 0, and the bytes that were put.
        for (number, room, faults, bytes) in [(9, 8, 0, "nOFF"), (1, 8, 1, "n"), (9, 2, 1, "nO")] {
            let fail = Vec::from_slice(rt.alloc(), &[number])?;
            let mut sink = MemSink::new(rt.alloc(), room, fail, 1)?;
            let count = match put_all(&mut sink, b"nOFF") {
                Ok(()) => 0,
                Err(failed) => failed.count,
            };
            assert_eq!(rt; count, faults, "call {number}");
            assert_eq!(rt; sink.bytes(), bytes.as_bytes(), "call {number}");
        }
        Ok(())
    }
}
