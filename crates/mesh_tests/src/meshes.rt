//! Faces of some triangles, segments and tetrahedra, and walks round vertices.

use mesh_laws::{Mesh, face_count, face_sum, free_faces, walk};
use std::test::Fail;

// Six triangles round vertex 6, and one with a repeated number.
const TRIANGLES: [[u32; 3]; 7] = [
    [0, 6, 2],
    [0, 4, 6],
    [1, 2, 6],
    [1, 6, 5],
    [3, 6, 4],
    [3, 5, 6],
    [0, 2, 2],
];

#[test]
fn triangles_at_their_edges(rt: HostRuntime) {
    let inner = [0, 6];
    assert_eq!(rt;
        (face_count(&TRIANGLES, &inner), face_sum(&TRIANGLES, &inner)),
        (2, 0)
    );
    let outer = [0, 2];
    assert_eq!(rt;
        (face_count(&TRIANGLES, &outer), face_sum(&TRIANGLES, &outer)),
        (1, -1)
    );
    let missing = [0, 1];
    assert_eq!(rt;
        (
            face_count(&TRIANGLES, &missing),
            face_sum(&TRIANGLES, &missing)
        ),
        (0, 0)
    );
}

#[test]
fn other_dimensions(rt: HostRuntime) {
    let segments = [[4, 7], [7, 9], [2, 7]];
    assert_eq!(rt;
        (face_count(&segments, &[7]), face_sum(&segments, &[7])),
        (3, 1)
    );
    let tetrahedra = [[0, 1, 2, 3], [2, 1, 0, 3], [1, 2, 0, 3]];
    let base = [0, 1, 2];
    assert_eq!(rt;
        (face_count(&tetrahedra, &base), face_sum(&tetrahedra, &base)),
        (3, -1)
    );
    let side = [1, 2, 3];
    assert_eq!(rt;
        (face_count(&tetrahedra, &side), face_sum(&tetrahedra, &side)),
        (3, 1)
    );
}

#[test]
fn a_mesh_has_its_parts(rt: HostRuntime) -> Result<(), Fail> {
    let mesh = Mesh {
        vertices: Vec::from_slice(rt.alloc(), &[[500_000, 0], [0, 500_000]])?,
        simplices: Vec::from_slice(rt.alloc(), &[[0, 1]])?,
    };
    assert_eq!(rt; mesh.vertices.len(), 2);
    assert_eq!(rt; mesh.simplices.as_slice(), [[0, 1]].as_slice());
    Ok(())
}

/// The isosurface round two opposite corners of a cube.
const OPPOSITE_CORNERS: [[u32; 3]; 6] = [
    [0, 3, 1],
    [0, 2, 4],
    [0, 4, 3],
    [1, 5, 2],
    [1, 3, 5],
    [2, 5, 4],
];

/// A walk, where memory is ample.
struct Walk {
    triangles: &'static [[u32; 3]],
    vertex: u32,
    order: &'static [u32],
    closed: bool,
    whole: bool,
}

const WALKS: [Walk; 7] = [
    Walk {
        triangles: &OPPOSITE_CORNERS,
        vertex: 0,
        order: &[1, 2, 0],
        closed: false,
        whole: true,
    },
    Walk {
        triangles: &TRIANGLES,
        vertex: 6,
        order: &[0, 1, 4, 5, 3, 2],
        closed: true,
        whole: true,
    },
    // No triangle is at the vertex.
    Walk {
        triangles: &TRIANGLES,
        vertex: 9,
        order: &[],
        closed: false,
        whole: true,
    },
    // The walk comes back to one that is not its first.
    Walk {
        triangles: &[[0, 1, 2], [0, 2, 3], [0, 3, 2], [0, 4, 1]],
        vertex: 0,
        order: &[3, 0, 1, 2],
        closed: false,
        whole: true,
    },
    // A path beside a cycle.
    Walk {
        triangles: &[[0, 4, 5], [0, 5, 4], [0, 1, 2], [0, 2, 3]],
        vertex: 0,
        order: &[2, 3],
        closed: false,
        whole: false,
    },
    // Of two candidates the first one in the list is taken.
    Walk {
        triangles: &[[1, 2, 0], [0, 2, 3], [4, 0, 2], [3, 1, 0]],
        vertex: 0,
        order: &[0, 1, 3],
        closed: true,
        whole: false,
    },
    // Two triangles.
    Walk {
        triangles: &[[0, 1, 2], [2, 1, 0]],
        vertex: 0,
        order: &[0, 1],
        closed: true,
        whole: true,
    },
];

#[test]
fn walks_round_vertices(rt: HostRuntime) -> Result<(), Fail> {
    for row in &WALKS {
        let trail = walk(rt.alloc(), row.triangles, row.vertex)
            .ok()
            .ok_or("memory")?;
        assert_eq!(rt; trail.order.as_slice(), row.order);
        assert_eq!(rt; (trail.closed, trail.whole), (row.closed, row.whole));
    }
    Ok(())
}

#[test]
fn faces_of_one_simplex(rt: HostRuntime) -> Result<(), Fail> {
    let segment = free_faces(rt.alloc(), &[[0, 1]]).ok().ok_or("memory")?;
    assert_eq!(rt; segment, 2);
    // The six edges that the sides of the cube have in common with the isosurface.
    let triangles = free_faces(rt.alloc(), &OPPOSITE_CORNERS)
        .ok()
        .ok_or("memory")?;
    assert_eq!(rt; triangles, 6);
    let tetrahedra = [[0, 1, 2, 3], [4, 2, 1, 3], [3, 0, 1, 5]];
    let tetrahedra = free_faces(rt.alloc(), &tetrahedra).ok().ok_or("memory")?;
    assert_eq!(rt; tetrahedra, 8);
    Ok(())
}
