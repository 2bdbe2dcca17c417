//! Texts of meshes, put to a sink with ample room and to one that fails.

use iso_base::MemSink;
use mesh_laws::Mesh;
use off_write::{WriteFault, write_mesh};
use std::alloc::{AllocError, Global};
use std::test::Fail;

const ROOM: usize = 1024;

fn mesh_of<const D: usize>(
    alloc: Global,
    vertices: &[[i64; D]],
    simplices: &[[u32; D]],
) -> Result<Mesh<D>, AllocError> {
    Ok(Mesh {
        vertices: Vec::from_slice(alloc, vertices)?,
        simplices: Vec::from_slice(alloc, simplices)?,
    })
}

#[test]
fn in_two_dimensions(rt: HostRuntime) -> Result<(), Fail> {
    let cases: [(&[[i64; 2]], &[[u32; 2]], &str); 6] = [
        (&[], &[], "nOFF\n2\n0 0 0\n"),
        (
            &[[500_000, 0], [0, 500_000]],
            &[[0, 1]],
            "nOFF\n2\n2 1 0\n0.500000 0.000000\n0.000000 0.500000\n2 0 1\n",
        ),
        (
            &[[333_333, 0], [333_333, 1_000_000]],
            &[[1, 0]],
            "nOFF\n2\n2 1 0\n0.333333 0.000000\n0.333333 1.000000\n2 1 0\n",
        ),
        (
            &[
                [500_000, 0],
                [0, 500_000],
                [1_000_000, 500_000],
                [500_000, 1_000_000],
            ],
            &[[1, 0], [2, 3]],
            "nOFF\n2\n4 2 0\n0.500000 0.000000\n0.000000 0.500000\n1.000000 0.500000\n0.500000 1.000000\n2 1 0\n2 2 3\n",
        ),
        (
            &[[-1, -285_715], [i64::MIN, i64::MAX]],
            &[],
            "nOFF\n2\n2 0 0\n-0.000001 -0.285715\n-9223372036854.775808 9223372036854.775807\n",
        ),
        (
            &[],
            &[[4_294_967_295, 1_234_567]],
            "nOFF\n2\n0 1 0\n2 4294967295 1234567\n",
        ),
    ];
    for (vertices, simplices, want) in cases {
        let mesh = mesh_of(rt.alloc(), vertices, simplices)?;
        let mut out = MemSink::new(rt.alloc(), ROOM, Vec::new(rt.alloc()), ROOM)?;
        assert_eq!(rt; write_mesh(&mesh, &mut out), Ok(()));
        assert_eq!(rt; out.bytes(), want.as_bytes());
    }
    Ok(())
}

#[test]
fn in_three_dimensions(rt: HostRuntime) -> Result<(), Fail> {
    let cases: [(&[[i64; 3]], &[[u32; 3]], &str); 2] = [
        (
            &[[500_000, 0, 0], [0, 500_000, 0], [0, 0, 500_000]],
            &[[0, 2, 1]],
            "OFF\n3 1 0\n0.500000 0.000000 0.000000\n0.000000 0.500000 0.000000\n0.000000 0.000000 0.500000\n3 0 2 1\n",
        ),
        (
            &[
                [500_000, 0, 0],
                [0, 500_000, 0],
                [500_000, 500_000, 0],
                [0, 0, 500_000],
                [500_000, 0, 500_000],
                [0, 500_000, 500_000],
                [500_000, 500_000, 500_000],
            ],
            &[
                [0, 6, 2],
                [0, 4, 6],
                [1, 2, 6],
                [1, 6, 5],
                [3, 6, 4],
                [3, 5, 6],
            ],
            "OFF\n7 6 0\n0.500000 0.000000 0.000000\n0.000000 0.500000 0.000000\n0.500000 0.500000 0.000000\n0.000000 0.000000 0.500000\n0.500000 0.000000 0.500000\n0.000000 0.500000 0.500000\n0.500000 0.500000 0.500000\n3 0 6 2\n3 0 4 6\n3 1 2 6\n3 1 6 5\n3 3 6 4\n3 3 5 6\n",
        ),
    ];
    for (vertices, simplices, want) in cases {
        let mesh = mesh_of(rt.alloc(), vertices, simplices)?;
        let mut out = MemSink::new(rt.alloc(), ROOM, Vec::new(rt.alloc()), 7)?;
        assert_eq!(rt; write_mesh(&mesh, &mut out), Ok(()));
        assert_eq!(rt; out.bytes(), want.as_bytes());
    }
    Ok(())
}

#[test]
fn in_four_dimensions(rt: HostRuntime) -> Result<(), Fail> {
    let mesh = mesh_of(
        rt.alloc(),
        &[
            [500_000, 0, 0, 0],
            [0, 500_000, 0, 0],
            [0, 0, 500_000, 0],
            [0, 0, 0, 500_000],
        ],
        &[[0, 1, 2, 3]],
    )?;
    let mut out = MemSink::new(rt.alloc(), ROOM, Vec::new(rt.alloc()), ROOM)?;
    assert_eq!(rt; write_mesh(&mesh, &mut out), Ok(()));
    let want =
        "nOFF\n4\n4 1 0\n0.500000 0.000000 0.000000 0.000000\n0.000000 0.500000 0.000000 0.000000\n0.000000 0.000000 0.500000 0.000000\n0.000000 0.000000 0.000000 0.500000\n4 0 1 2 3\n";
    assert_eq!(rt; out.bytes(), want.as_bytes());
    Ok(())
}

#[test]
fn a_failure_leaves_a_front(rt: HostRuntime) -> Result<(), Fail> {
    let mesh = mesh_of(rt.alloc(), &[[500_000, 0], [0, 500_000]], &[[0, 1]])?;
    for (step, fails, want) in [
        (1, 0, ""),
        (1, 1, "n"),
        (5, 2, "nOFF\n2\n2 1"),
        (9, 9, "nOFF\n2\n2 1 0\n0.500000 0"),
    ] {
        let fail = Vec::from_slice(rt.alloc(), &[fails])?;
        let mut out = MemSink::new(rt.alloc(), 23, fail, step)?;
        assert_eq!(rt; write_mesh(&mesh, &mut out), Err(WriteFault(1)));
        assert_eq!(rt; out.bytes(), want.as_bytes());
    }
    Ok(())
}

// After a failure at the second piece the sink has the first one.
#[test]
fn pieces_are_large(rt: HostRuntime) -> Result<(), Fail> {
    let mut vertices = Vec::new(rt.alloc());
    for i in 0..4000u32 {
        vertices.push([i64::from(i), 1_000_000])?;
    }
    let mesh = Mesh {
        vertices,
        simplices: Vec::new(rt.alloc()),
    };
    let fail = Vec::from_slice(rt.alloc(), &[1])?;
    let mut out = MemSink::new(rt.alloc(), 100_000, fail, 100_000)?;
    assert_eq!(rt; write_mesh(&mesh, &mut out), Err(WriteFault(1)));
    assert!(rt; out.bytes().len() >= 32_768);
    Ok(())
}
