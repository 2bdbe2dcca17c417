//! The program that lists all faults of a table: its words, files and standard streams, handed to what does the work.
#![tactic(auto)]

use faults_cli::{exit_code, run};
use iso_base::Memory;
use iso_cli::{Status, status_text};
use std::process::ExitCode;
use system_files::{ErrSink, FileShelf, OutSink, WordsFault, words};

/// Ends as a run does where memory is refused.
fn end_without_memory(err: &mut ErrSink) -> ExitCode {
    err.end(status_text(&Status::Memory).as_str(), Status::Memory.code())
}

fn main(rt: HostRuntime) -> ExitCode {
    let mut err = ErrSink::new(rt.stderr());
    let words = match words(&rt, rt.alloc()) {
        Ok(words) => words,
        Err(WordsFault::Memory) => return end_without_memory(&mut err),
        Err(WordsFault::Unreadable) => return err.end("words\n", WordsFault::UNREADABLE),
    };
    let mut shelf = match FileShelf::new(rt.alloc(), &rt) {
        Ok(shelf) => shelf,
        Err(Memory) => return end_without_memory(&mut err),
    };
    let mut out = OutSink::new(&rt);
    let ended = run(rt.alloc(), words.as_slice(), &mut shelf, &mut out, &mut err);
    ExitCode::from(exit_code(&ended))
}
