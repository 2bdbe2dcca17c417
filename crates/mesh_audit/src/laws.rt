//! A law of findings. The function does nothing when it runs.

ghost use Rattle.std.specs.Prelude.{◌≡◌, ℕ, List};
ghost use Rattle.mesh_audit.specs.Findings.{HasOneFinding};

/// A mesh has one finding, and no other.
pub fn one_finding_law()
    ensures { (d vertices : ℕ) (simplices : List (List ℕ)) → HasOneFinding d vertices simplices }
{}
