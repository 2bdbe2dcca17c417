//! The mesh that the words name, and what is found in it.

ghost use Rattle.std.specs.Prelude.{◌≡◌, None, IfOk, IfErr, OnOk};
ghost use Rattle.std.specs.Io.KnownBytes.{IsAtEnd};
ghost use Rattle.iso_base.specs.Files.{bytes_of};
ghost use Rattle.iso_base.specs.Shelves.{IsSameShelf};
ghost use Rattle.off_read.specs.AnyOffs.{IsRightMesh, mesh_of};
ghost use Rattle.iso_cli.specs.Audits.{HoldsGlued, HoldsOff, IsFoundIn, IsRefusedAudit, IsRefusedOff};
ghost use Rattle.iso_cli.specs.Audits.{IsShortFront, LeavesOff};
ghost use Rattle.iso_cli.specs.Refusals.{IsRefusedFile};
ghost use Rattle.iso_cli.specs.Rests.{IsTakenFrom};
ghost use Rattle.iso_cli.specs.Shelves.{BlamesShelf, FailsOnlyFor};
ghost use Rattle.iso_cli.specs.Statuses.{IfDecided, IsOfAudit, IsOfMesh};

use crate::status::Status;
use iso_base::{Memory, Shelf};
use mesh_audit::{Finding, audit};
use off_read::{AnyOff, read_off};
use std::alloc::Global;

/// Reads the mesh of a file, whoever wrote it.
fn read_mesh<S: Shelf>(alloc: Global, shelf: &mut S, name: &str) -> Result<AnyOff, Status>
    ensures shelf { IsSameShelf S.faults S.files S.sound shelf.old shelf.new }
    ensures blamed { IfErr result (λ status. BlamesShelf status (S.faults shelf.old) (S.faults shelf.new)) }
    ensures missing { FailsOnlyFor (bytes_of (S.files shelf.old) name.now ≡ None) (S.sound shelf.old) result }
    ensures kinds { IfErr result IsOfMesh }
    ensures refused { IfDecided result (IsRefusedFile (S.files shelf.old) name.now IsRefusedOff) }
    ensures left { IfErr result (LeavesOff (S.files shelf.old) name.now (S.rest shelf.new)) }
    ensures taken { OnOk result (IsTakenFrom (S.files shelf.old) name.now (S.rest shelf.new) IsShortFront) }
    ensures whole { OnOk result (IsAtEnd (S.rest shelf.new)) }
    ensures held { IfOk result (HoldsOff (S.files shelf.old) name.now) }
    ensures right { IfOk result (λ mesh. IsRightMesh (mesh_of mesh)) }
{
    shelf.begin(name)?;
    Ok(read_off(alloc, shelf)?)
}

// What is found in a mesh, of whichever dimension.
fn audit_any(alloc: Global, mesh: &AnyOff) -> Result<Finding, Memory>
    requires right { IsRightMesh (mesh_of mesh.now) }
    ensures { IfOk result (IsFoundIn mesh.now) }
{
    match mesh {
        AnyOff::O2(off) => audit(alloc, off),
        AnyOff::O3(off) => audit(alloc, off),
        AnyOff::O4(off) => audit(alloc, off),
    }
}

/// Reads the mesh of a file, whose simplices are to be glued. The number of different faces that are in one simplex
/// alone.
pub fn read_glued<S: Shelf>(alloc: Global, shelf: &mut S, name: &str) -> Result<u64, Status>
    ensures shelf { IsSameShelf S.faults S.files S.sound shelf.old shelf.new }
    ensures blamed { IfErr result (λ status. BlamesShelf status (S.faults shelf.old) (S.faults shelf.new)) }
    ensures missing { FailsOnlyFor (bytes_of (S.files shelf.old) name.now ≡ None) (S.sound shelf.old) result }
    ensures kinds { IfErr result IsOfAudit }
    ensures refused { IfDecided result (IsRefusedFile (S.files shelf.old) name.now IsRefusedAudit) }
    ensures left { IfErr result (LeavesOff (S.files shelf.old) name.now (S.rest shelf.new)) }
    ensures whole { OnOk result (IsAtEnd (S.rest shelf.new)) }
    ensures held { IfOk result (HoldsGlued (S.files shelf.old) name.now) }
{
    let mesh = read_mesh(alloc, shelf, name)?;
    match audit_any(alloc, &mesh)? {
        Finding::Clean { boundary } => Ok(boundary),
        finding => Err(Status::AuditFault(finding)),
    }
}
