//! Simplices of faces, by pulling.

use pulling_tri::pull;

#[test]
fn faces_of_polygons_segments_and_triangles(rt: HostRuntime) {
    // midpoints and positive corners of a cube with the corners 1 and 2 positive
    let two_corners = [51, 60, 81, 84, 162, 168, 207];
    // a pyramid over a square whose sides are 0 1, 1 3, 3 2 and 2 0
    let square_pyramid = [15, 19, 26, 28, 21];
    // a pyramid over a pentagon with its points in turn: two of its sides meet a third one in the top alone
    let pentagon_pyramid = [31, 35, 38, 44, 56, 49];
    for (facets, face, want) in [
        (
            two_corners.as_slice(),
            51,
            [[0, 1, 5], [0, 4, 5]].as_slice(),
        ),
        (
            square_pyramid.as_slice(),
            15,
            [[0, 1, 3], [0, 2, 3]].as_slice(),
        ),
        (square_pyramid.as_slice(), 26, [[1, 3, 4]].as_slice()),
        (
            pentagon_pyramid.as_slice(),
            31,
            [[0, 1, 2], [0, 2, 3], [0, 3, 4]].as_slice(),
        ),
        (pentagon_pyramid.as_slice(), 35, [[0, 1, 5]].as_slice()),
    ] {
        let simplices = pull::<3>(rt.alloc(), facets, face).expect(&rt, "memory");
        assert_eq!(rt; simplices.as_slice(), want);
    }
}

#[test]
fn sides_of_a_triangle_and_faces_of_a_simplex(rt: HostRuntime) {
    let segment = pull::<2>(rt.alloc(), &[3, 5, 6], 5).expect(&rt, "memory");
    assert_eq!(rt; segment.as_slice(), [[0, 2]].as_slice());
    let tetrahedron = pull::<4>(rt.alloc(), &[15, 23, 27, 29, 30], 29).expect(&rt, "memory");
    assert_eq!(rt; tetrahedron.as_slice(), [[0, 2, 3, 4]].as_slice());
}
