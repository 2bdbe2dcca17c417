//! Findings on meshes, worked by hand.

ghost use Rattle.std.specs.Prelude.{◌≡◌, ◌<◌, true, All};

use crate::{Finding, Off, audit};
use std::alloc::Global;
use std::test::Fail;

/// A mesh with what is found in it, where memory is ample.
struct Row<const D: usize> {
    vertices: u32,
    simplices: &'static [[u32; D]],
    finding: Finding,
}

const SEGMENTS: [Row<2>; 2] = [
    // One segment.
    Row {
        vertices: 2,
        simplices: &[[0, 1]],
        finding: Finding::Clean { boundary: 2 },
    },
    // Three segments that begin at one vertex.
    Row {
        vertices: 4,
        simplices: &[[1, 0], [0, 2], [0, 3]],
        finding: Finding::Face {
            simplex: 0,
            place: 0,
            count: 3,
            sum: -1,
        },
    },
];

/// The outer triangles of a cube with the vertices 0 to 7, and of another one that shares the edge from 3 to 7.
const TWO_CUBES: [[u32; 3]; 24] = [
    [0, 2, 3],
    [0, 3, 1],
    [4, 5, 7],
    [4, 7, 6],
    [0, 1, 5],
    [0, 5, 4],
    [2, 6, 7],
    [2, 7, 3],
    [0, 4, 6],
    [0, 6, 2],
    [1, 3, 7],
    [1, 7, 5],
    [3, 9, 10],
    [3, 10, 8],
    [7, 11, 13],
    [7, 13, 12],
    [3, 8, 11],
    [3, 11, 7],
    [9, 12, 13],
    [9, 13, 10],
    [3, 7, 12],
    [3, 12, 9],
    [8, 10, 13],
    [8, 13, 11],
];

/// A torus with seven vertices, each pair of which has an edge.
const TORUS: [[u32; 3]; 14] = [
    [0, 1, 3],
    [1, 2, 4],
    [2, 3, 5],
    [3, 4, 6],
    [4, 5, 0],
    [5, 6, 1],
    [6, 0, 2],
    [0, 3, 2],
    [1, 4, 3],
    [2, 5, 4],
    [3, 6, 5],
    [4, 0, 6],
    [5, 1, 0],
    [6, 2, 1],
];

const TRIANGLES: [Row<3>; 11] = [
    // The isosurface round two opposite corners of a cube.
    Row {
        vertices: 6,
        simplices: &[
            [0, 3, 1],
            [0, 2, 4],
            [0, 4, 3],
            [1, 5, 2],
            [1, 3, 5],
            [2, 5, 4],
        ],
        finding: Finding::Clean { boundary: 6 },
    },
    // Two paths at a vertex.
    Row {
        vertices: 5,
        simplices: &[[0, 1, 4], [2, 4, 3]],
        finding: Finding::Link { vertex: 4 },
    },
    // A triangle twice.
    Row {
        vertices: 3,
        simplices: &[[0, 1, 2], [0, 1, 2]],
        finding: Finding::Face {
            simplex: 0,
            place: 0,
            count: 2,
            sum: 2,
        },
    },
    // A triangle and its reverse.
    Row {
        vertices: 3,
        simplices: &[[0, 1, 2], [0, 2, 1]],
        finding: Finding::Link { vertex: 0 },
    },
    // A repeated number behind a triangle that stands twice.
    Row {
        vertices: 4,
        simplices: &[[0, 1, 2], [0, 1, 2], [3, 1, 3]],
        finding: Finding::Repeat { simplex: 2 },
    },
    // A Moebius strip.
    Row {
        vertices: 5,
        simplices: &[[0, 1, 2], [2, 1, 3], [2, 3, 4], [4, 3, 0], [4, 0, 1]],
        finding: Finding::Face {
            simplex: 0,
            place: 2,
            count: 2,
            sum: 2,
        },
    },
    Row {
        vertices: 7,
        simplices: &TORUS,
        finding: Finding::Clean { boundary: 0 },
    },
    Row {
        vertices: 14,
        simplices: &TWO_CUBES,
        finding: Finding::Face {
            simplex: 7,
            place: 0,
            count: 4,
            sum: 0,
        },
    },
    // The surfaces of two tetrahedra that share a vertex.
    Row {
        vertices: 7,
        simplices: &[
            [1, 2, 3],
            [0, 3, 2],
            [0, 1, 3],
            [0, 2, 1],
            [4, 5, 6],
            [3, 6, 5],
            [3, 4, 6],
            [3, 5, 4],
        ],
        finding: Finding::Link { vertex: 3 },
    },
    // A fan with a doubled triangle.
    Row {
        vertices: 5,
        simplices: &[[0, 1, 2], [0, 2, 3], [0, 2, 3], [0, 3, 4]],
        finding: Finding::Face {
            simplex: 0,
            place: 1,
            count: 3,
            sum: 1,
        },
    },
    // No triangle, and many vertices.
    Row {
        vertices: 4_294_967_295,
        simplices: &[],
        finding: Finding::Clean { boundary: 0 },
    },
];

const TETRAHEDRA: [Row<4>; 2] = [
    // Two tetrahedra that share a vertex.
    Row {
        vertices: 7,
        simplices: &[[0, 1, 2, 3], [0, 4, 5, 6]],
        finding: Finding::Clean { boundary: 8 },
    },
    // Two tetrahedra on one side of a triangle.
    Row {
        vertices: 5,
        simplices: &[[3, 0, 1, 2], [4, 0, 1, 2]],
        finding: Finding::Face {
            simplex: 0,
            place: 0,
            count: 2,
            sum: 2,
        },
    },
];

// Whether the numbers of a simplex are those of vertices.
fn has_indices<const D: usize>(simplex: &[u32; D], vertices: u32) -> bool
    ensures { result ≡ true → All (λ i. i < vertices) simplex.now }
{
    for number in simplex {
        if *number >= vertices {
            return false;
        }
    }
    true
}

// Whether the numbers of the simplices are those of vertices.
fn have_indices<const D: usize>(simplices: &[[u32; D]], vertices: u32) -> bool
    ensures { result ≡ true → All (λ w. All (λ i. i < vertices) w) simplices.now }
{
    for simplex in simplices {
        if !has_indices(simplex, vertices) {
            return false;
        }
    }
    true
}

fn found<const D: usize>(alloc: Global, row: &Row<D>) -> Result<Finding, Fail> {
    if D > 4 || row.simplices.len() > 100 || !have_indices(row.simplices, row.vertices) {
        return Err("a row".into());
    }
    let off = Off {
        vertices: row.vertices,
        simplices: Vec::from_slice(alloc, row.simplices)?,
    };
    Ok(audit(alloc, &off).ok().ok_or("memory")?)
}

#[test]
fn findings_on_meshes(rt: HostRuntime) -> Result<(), Fail> {
    for row in &SEGMENTS {
        assert_eq!(rt; found(rt.alloc(), row)?, row.finding);
    }
    for row in &TRIANGLES {
        assert_eq!(rt; found(rt.alloc(), row)?, row.finding);
    }
    for row in &TETRAHEDRA {
        assert_eq!(rt; found(rt.alloc(), row)?, row.finding);
    }
    Ok(())
}
