//! The worked grid of the demonstration, and its text, put to a sink with ample room and to one that fails.

use crate::counts::{MeshCounts, count_mesh, put_counts};
use crate::grid::make_grid;
use iso_base::{Failed, MemSink};
use mesh_laws::Mesh;
use std::test::Fail;

#[test]
fn worked_samples(rt: HostRuntime) -> Result<(), Fail> {
    let grid = make_grid(rt.alloc(), 2, 2, 0)?;
    assert_eq!(rt; grid.sizes, [2, 2, 1, 1]);
    assert!(rt; grid.samples.as_slice() == [60, 71, 209, 170].as_slice());
    Ok(())
}

#[test]
fn all_of_the_text_or_a_front(rt: HostRuntime) -> Result<(), Fail> {
    let mesh = Mesh {
        vertices: Vec::from_slice(rt.alloc(), &[[0, 500_000], [500_000, 1_000_000]])?,
        simplices: Vec::from_slice(rt.alloc(), &[[0, 1]])?,
    };
    let counts = count_mesh(rt.alloc(), &mesh)?;
    assert_eq!(rt;
        counts,
        MeshCounts {
            vertices: 2,
            simplices: 1,
            boundary: 2
        }
    );
    for (fails, done, want) in [
        (99, Ok(()), "vertices 2\nsimplices 1\nboundary 2\n"),
        (2, Err(Failed { count: 1 }), "vertices 2\nsim"),
    ] {
        let fail = Vec::from_slice(rt.alloc(), &[fails])?;
        let mut out = MemSink::new(rt.alloc(), 64, fail, 7)?;
        assert_eq!(rt; put_counts(&counts, &mut out), done);
        assert_eq!(rt; out.bytes(), want.as_bytes());
    }
    Ok(())
}
