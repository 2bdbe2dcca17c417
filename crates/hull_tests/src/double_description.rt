//! Facets of hulls, by double description.

use hull_dd::{described_facets, facets};

#[test]
fn facets_in_the_plane_and_in_space(rt: HostRuntime) {
    let triangle = facets(rt.alloc(), &[[2, 0], [0, 2], [0, 0]]).expect(&rt, "memory");
    assert_eq!(rt; triangle.as_slice(), [3, 5, 6].as_slice());
    // midpoints and positive corners of a cube with two opposite corners positive: coefficients have size 3
    let opposite = [
        [2, 0, 0],
        [0, 2, 0],
        [0, 0, 2],
        [4, 4, 2],
        [4, 2, 4],
        [2, 4, 4],
        [0, 0, 0],
        [4, 4, 4],
    ];
    let want = [11, 21, 25, 38, 42, 52, 67, 69, 70, 152, 168, 176];
    let found = facets(rt.alloc(), &opposite).expect(&rt, "memory");
    assert_eq!(rt; found.as_slice(), want.as_slice());
    // the same with the ends of a diagonal of a side positive: facets with more than three points
    let diagonal = [
        [2, 0, 0],
        [0, 2, 0],
        [4, 2, 0],
        [2, 4, 0],
        [4, 0, 2],
        [0, 4, 2],
        [4, 0, 0],
        [0, 4, 0],
    ];
    let want = [51, 60, 81, 84, 162, 168, 207];
    let found = facets(rt.alloc(), &diagonal).expect(&rt, "memory");
    assert_eq!(rt; found.as_slice(), want.as_slice());
}

#[test]
fn facets_in_four_dimensions(rt: HostRuntime) {
    // the corners of a hypercube
    let corners = [
        [0, 0, 0, 0],
        [2, 0, 0, 0],
        [0, 2, 0, 0],
        [2, 2, 0, 0],
        [0, 0, 2, 0],
        [2, 0, 2, 0],
        [0, 2, 2, 0],
        [2, 2, 2, 0],
        [0, 0, 0, 2],
        [2, 0, 0, 2],
        [0, 2, 0, 2],
        [2, 2, 0, 2],
        [0, 0, 2, 2],
        [2, 0, 2, 2],
        [0, 2, 2, 2],
        [2, 2, 2, 2],
    ];
    let want = [255, 3855, 13107, 21845, 43690, 52428, 61680, 65280];
    let found = facets(rt.alloc(), &corners).expect(&rt, "memory");
    assert_eq!(rt; found.as_slice(), want.as_slice());
    // the corners of a simplex and a point inside, with the greatest coordinates
    let simplex = [
        [-32, -32, -32, -32],
        [32, -32, -32, -32],
        [-32, 32, -32, -32],
        [-32, -32, 32, -32],
        [-32, -32, -32, 32],
        [-31, -31, -31, -31],
    ];
    let found = facets(rt.alloc(), &simplex).expect(&rt, "memory");
    assert_eq!(rt; found.as_slice(), [15, 23, 27, 29, 30].as_slice());
}

#[test]
fn the_plain_way_is_not_needed(rt: HostRuntime) {
    // midpoints and positive corners of a cube with the corners 0, 1, 2, 4 and 7 positive
    let points = [
        [4, 2, 0],
        [2, 4, 0],
        [4, 0, 2],
        [2, 0, 4],
        [0, 4, 2],
        [0, 2, 4],
        [4, 4, 2],
        [4, 2, 4],
        [2, 4, 4],
        [0, 0, 0],
        [4, 0, 0],
        [0, 4, 0],
        [0, 0, 4],
        [4, 4, 4],
    ];
    let found = described_facets(rt.alloc(), &points).expect(&rt, "memory");
    assert!(rt; found.is_some());
}

#[test]
fn facets_of_few_and_of_flat_sets(rt: HostRuntime) {
    // points that lie in one hyperplane are all on the one facet, where D of them span it
    let none: [[i32; 3]; 0] = [];
    let empty = facets(rt.alloc(), &none).expect(&rt, "memory");
    assert!(rt; empty.is_empty());
    let line = facets(rt.alloc(), &[[0, 0], [1, 1], [3, 3]]).expect(&rt, "memory");
    assert_eq!(rt; line.as_slice(), [7].as_slice());
    // points that stand there twice are on the same facets
    let twice = facets(
        rt.alloc(),
        &[[0, 0], [2, 0], [0, 0], [0, 2], [2, 0], [1, 1]],
    )
    .expect(&rt, "memory");
    assert_eq!(rt; twice.as_slice(), [13, 23, 58].as_slice());
}
