//! Judging the lines of a header.

ghost use Rattle.std.specs.Prelude.{◌≡◌, ◌<◌, ◌≤◌, length, IfErr, IfOk, IsTrue, IsNone};
ghost use Rattle.iso_formats.specs.GridFile.{IsRegularHeader, SpellHeader};
ghost use Rattle.iso_formats.specs.GridFaults.{lines_fault};
ghost use Rattle.nrrd_raw.specs.FaultCauses.{cause_of};
ghost use Rattle.nrrd_raw.specs.GridFaultWords.{is_header_fault, blame_of};
ghost use Rattle.nrrd_raw.specs.HeaderFronts.{HoldsOfLines};

use crate::faults::GridFault;
use crate::fields::headers::Header;
use crate::fields::stated::Stated;
use crate::lines::ends::line_at;

/// The header that the bytes spell, or the first cause that one of its lines or its fields has. The bytes begin with a
/// right first line, and end with an empty one.
pub(crate) fn header_of(bytes: &[u8]) -> Result<Header, GridFault>
    requires some { 0 < length bytes.now }
    requires short { length bytes.now ≤ 65536 }
    ensures causes { IfErr result (λ fault. IsTrue (is_header_fault fault)) }
    ensures form { IfErr result (λ fault. IsNone (blame_of fault)) }
    ensures regular { IfOk result IsRegularHeader }
    ensures spelled { IfOk result (λ header. HoldsOfLines bytes.now (λ texts. SpellHeader texts header)) }
    ensures cause { IfErr result (λ fault. HoldsOfLines bytes.now (λ texts. lines_fault texts ≡ cause_of fault)) }
{
    let mut stated = Stated::none();
    let mut number = 2u32;
    let (_, mut at) = line_at(bytes, 0);
    'lines: while at < bytes.len() {
        let (text, next) = line_at(bytes, at);
        if text.is_empty() {
            break;
        }
        stated = stated.with_line(number, text)?;
        number += 1;
        at = next;
    }
    stated.header()
}
