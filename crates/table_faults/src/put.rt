//! The text of all faults, put to a sink.

ghost use Rattle.std.specs.Prelude.{◌≡◌, ◌≤◌, length, OnOk, OnErr};
ghost use Rattle.std.specs.Io.KnownBytes.{Appends};
ghost use Rattle.iso_base.specs.Faults.{CountsFaults};
ghost use Rattle.iso_base.specs.Fronts.{AppendsFront};
ghost use Rattle.table_faults.specs.FaultText.{count_line, fault_lines, faults_text};

use crate::Fault;
use crate::lines::fault_text;
use arrayvec::ArrayString;
use iso_base::{Failed, Sink, put_all};

/// How many faults have their lines on one page.
const ON_A_PAGE: usize = 512;

/// Puts the line of each fault, in order, and then `faults` and their number. No call allocates.
///
/// After a failure a front of this text was put.
pub fn put_faults<O: Sink>(faults: &[Fault], out: &mut O) -> Result<(), Failed>
    ensures faults { CountsFaults (O.faults out.old) (O.faults out.new) result }
    ensures all { OnOk result (Appends (O.bytes out.old) (O.bytes out.new) (faults_text faults.now)) }
    ensures front { OnErr result (AppendsFront (O.bytes out.old) (O.bytes out.new) (faults_text faults.now)) }
{
    let mut done = 0;
    while done < faults.len() {
        let end = faults.len().min(done + ON_A_PAGE);
        put_all(out, page_text(&faults[done..end]).as_str().as_bytes())?;
        done = end;
    }
    put_all(out, count_text(faults.len()).as_str().as_bytes())
}

/// The lines of the faults of a page.
fn page_text(faults: &[Fault]) -> ArrayString<65536>
    requires { length faults.now ≤ 512 }
    ensures { result.bytes ≡ fault_lines faults.now }
{
    let mut text = ArrayString::new();
    for fault in faults {
        text.push_str(fault_text(fault).as_str());
    }
    text
}

/// The line that says how many faults there are.
fn count_text(count: usize) -> ArrayString<128>
    ensures { result.bytes ≡ count_line count }
{
    let mut text = ArrayString::new();
    text.push_str("faults ");
    let mut digits = itoa::Buffer::new();
    text.push_str(digits.format(count));
    text.push_str("\n");
    text
}
