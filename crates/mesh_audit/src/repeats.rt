//! The first simplex with a repeated number.

ghost use Rattle.std.specs.Prelude.{length, IfNone, IfSome};
ghost use Rattle.mesh_audit.specs.Findings.{has_repeat, NoneRepeats, IsLeast};

use mesh_laws::is_distinct;

// The least simplex that has a repeated number.
pub(crate) fn least_repeat<const D: usize>(simplices: &[[u32; D]]) -> Option<usize>
    ensures none { IfNone result (NoneRepeats simplices.now) }
    ensures some { IfSome result (IsLeast (has_repeat simplices.now) (length simplices.now)) }
{
    for (number, simplex) in simplices.iter().enumerate() {
        if !is_distinct(simplex) {
            return Some(number);
        }
    }
    None
}
