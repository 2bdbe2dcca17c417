//! Mesh files that are audited.

use super::generated::{BELOW_CENTRE, HYPERCORNER, OPPOSITE, PENTACHORA};
use super::*;
use mesh_audit::Finding;

const AUDIT: &str = "audit mesh=grid.nrrd";

const fn cleans<'a>(mesh: &'a str, out: &'a str) -> Case<'a> {
    Case {
        out,
        ..refuses(AUDIT, mesh, &[], Status::Done, "")
    }
}

const fn spoils<'a>(mesh: &'a str, cause: OffCause, line: &'a str) -> Case<'a> {
    refuses(AUDIT, mesh, &[], Status::MeshForm(cause), line)
}

const fn finds<'a>(mesh: &'a str, finding: Finding, line: &'a str) -> Case<'a> {
    refuses(AUDIT, mesh, &[], Status::AuditFault(finding), line)
}

// Meshes of each kind of table, which other tests place, and one with what other programs write. Around a vertex inside
// each triangle has one free edge, of a single simplex each face is free, and of each of the 24 tetrahedra one.
fn glued() -> [Case<'static>; 8] {
    [
        cleans(FIRST, "clean: boundary 2\n"),
        cleans(
            "nOFF\n2\n3 2 0\n0.500000 0.000000\n0.000000 0.500000\n0.500000 0.500000\n2 0 2\n2 2 1\n",
            "clean: boundary 2\n",
        ),
        cleans(OPPOSITE, "clean: boundary 6\n"),
        cleans(TETRAHEDRA, "clean: boundary 6\n"),
        cleans(BELOW_CENTRE, "clean: boundary 3\n"),
        cleans(HYPERCORNER, "clean: boundary 4\n"),
        cleans(PENTACHORA, "clean: boundary 24\n"),
        cleans(
            "OFF 3 1 0 # made by hand\n1e-3 -.5 0\n1e-3 -.5 0\n1e-3 -.5 0\n3 0 1 2 255 0 0\n",
            "clean: boundary 3\n",
        ),
    ]
}

#[test]
fn glued_meshes_are_clean(rt: HostRuntime) -> Result<(), Fail> {
    check_all(&rt, rt.alloc(), &glued())
}

// Two triangles that share a vertex alone, one that stands twice, and one with a repeated vertex.
fn unglued() -> [Case<'static>; 3] {
    let twice = Finding::Face {
        simplex: 0,
        place: 0,
        count: 2,
        sum: 2,
    };
    [
        finds(
            "OFF\n5 2 0\n1.000000 0.500000 0.000000\n0.500000 1.000000 0.000000\n1.500000 1.000000 0.000000\n1.000000 1.500000 0.000000\n1.000000 1.000000 0.500000\n3 0 1 4\n3 2 4 3\n",
            Finding::Link { vertex: 4 },
            "audit fault: link vertex 4\n",
        ),
        finds(
            "OFF\n3 2 0\n0 0 0\n1 0 0\n0 1 0\n3 0 1 2\n3 0 1 2\n",
            twice,
            "audit fault: face simplex 0 place 0 count 2 sum 2\n",
        ),
        finds(
            "OFF\n2 1 0\n0 0 0\n1 0 0\n3 0 1 1\n",
            Finding::Repeat { simplex: 0 },
            "audit fault: repeat simplex 0\n",
        ),
    ]
}

// A word of each part that does not fit, and words that are missing.
fn spoiled() -> [Case<'static>; 7] {
    [
        spoils(
            "COFF\n3 1 0\n",
            OffCause::Header(1),
            "mesh form: header 1\n",
        ),
        spoils("OFF\n3 -1 0\n", OffCause::Count(2), "mesh form: count 2\n"),
        spoils(
            "OFF\n1 0 0\n0 0 nan\n",
            OffCause::Coordinate(3),
            "mesh form: coordinate 3\n",
        ),
        spoils(
            "OFF 4 1 4\n0 0 0\n1 0 0\n1 1 0\n0 1 0\n4 0 1 2 3\n",
            OffCause::FaceSize(6),
            "mesh form: face size 6\n",
        ),
        spoils(
            "OFF\n2 1 0\n0 0 0\n1 0 0\n3 0 1 2\n",
            OffCause::Index(5),
            "mesh form: index 5\n",
        ),
        spoils(
            "OFF\n0 0 0\n\n7\n",
            OffCause::Extra(4),
            "mesh form: extra 4\n",
        ),
        spoils("", OffCause::Short(0), "mesh form: short 0\n"),
    ]
}

#[test]
fn other_meshes_are_refused(rt: HostRuntime) -> Result<(), Fail> {
    check_all(&rt, rt.alloc(), &unglued())?;
    check_all(&rt, rt.alloc(), &spoiled())
}
