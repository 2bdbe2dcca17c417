//! Tables that are made and checked in parts.

use super::*;
use iso_base::Gate;
use std::sync::atomic::{AtomicBool, Ordering};

// A gate at which piece 0 waits for a while until piece 1 has passed.
#[derive(Drop)]
struct Meeting {
    passed: AtomicBool,
    met: AtomicBool,
}

impl Meeting {
    fn new() -> Meeting {
        Meeting {
            passed: AtomicBool::new(false),
            met: AtomicBool::new(false),
        }
    }
}

impl Gate for Meeting {
    fn pass(&self, piece: u32) {
        if piece == 1 {
            self.passed.store(true, Ordering::SeqCst);
        }
        if piece == 0 {
            for _ in 0..100_000_000u64 {
                if self.passed.load(Ordering::SeqCst) {
                    self.met.store(true, Ordering::SeqCst);
                    return;
                }
            }
        }
    }
}

#[test]
fn two_parts_of_a_run_meet(rt: HostRuntime) -> Result<(), Fail> {
    let alloc = rt.alloc();
    for (line, want) in [
        ("generate kind=cube dim=2", SQUARE.as_slice()),
        ("check table=table.tab", b"accepted\n".as_slice()),
    ] {
        let words = words_of(alloc, line)?;
        let mut shelf = shelf_of(alloc, &accepts([&SQUARE, &[], &[]]))?;
        let mut out = MemSink::new(alloc, 200, Vec::new(alloc), 64)?;
        let mut err = MemSink::new(alloc, 100, Vec::new(alloc), 64)?;
        let gate = Meeting::new();
        let status = run(
            &rt,
            alloc,
            words.as_slice(),
            &mut shelf,
            &mut out,
            &mut err,
            &gate,
        );
        assert_eq!(rt; status, Status::Done, "{line}");
        assert_eq!(rt; out.bytes(), want, "{line}");
        assert!(rt; gate.met.load(Ordering::SeqCst), "{line}");
    }
    Ok(())
}
