//! What a run says of a table, and its exit code.

ghost use Rattle.std.specs.Prelude.{◌≡◌};
ghost use Rattle.faults_cli.specs.Endings.{code_of};

use iso_cli::Status;

/// What is said of a table, once the whole output was put.
#[derive(Clone, Copy, Debug, PartialEq, Eq, Drop)]
pub enum Verdict {
    /// It keeps every rule of acceptance.
    Accepted,
    /// A label fails a rule.
    Faulty,
}

/// The exit code of a run: 0 for an accepted table, 6 for one with faults, and else that of the status.
pub fn exit_code(ended: &Result<Verdict, Status>) -> u8
    ensures { result ≡ code_of ended.now }
{
    match ended {
        Ok(Verdict::Accepted) => 0,
        Ok(Verdict::Faulty) => 6,
        Err(status) => status.code(),
    }
}
