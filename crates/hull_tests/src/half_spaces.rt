//! Half-spaces and facets, the plain way.

use halfspace::{consider, know_lengths, plain_facets, points_at, reduce, slack, tight};
use small_turn::HalfSpace;

#[test]
fn half_spaces_in_lowest_terms(rt: HostRuntime) {
    for (normal, bound, want, least) in [
        ([4, -6], 8, [2, -3], 4),
        ([0, 0], -9, [0, 0], -1),
        ([0, 0], 0, [0, 0], 0),
        ([1099511627776, -1099511627776], 1099511627776, [1, -1], 1),
    ] {
        assert_eq!(rt;
            reduce(HalfSpace { normal, bound }),
            HalfSpace {
                normal: want,
                bound: least
            }
        );
    }
}

#[test]
fn points_at_a_boundary(rt: HostRuntime) {
    // the half-space x + 2 y <= 4
    let half = HalfSpace {
        normal: [1, 2],
        bound: 4,
    };
    assert_eq!(rt; slack(&half, &[1, 1]), 1);
    assert_eq!(rt; slack(&half, &[64, -64]), 68);
    assert_eq!(rt;
        tight(&half, &[[0, 0], [4, 0], [0, 2], [-2, 3], [2, 2]]),
        14
    );
    let steep = HalfSpace {
        normal: [16777216; 4],
        bound: -1099511627776,
    };
    assert_eq!(rt; slack(&steep, &[64; 4]), -1103806595072);
}

#[test]
fn facets_through_chosen_points(rt: HostRuntime) {
    // a square with its centre
    let square = [[0, 0], [2, 0], [0, 2], [2, 2], [1, 1]];
    know_lengths(&square);
    assert_eq!(rt; points_at(&square, &[3, 1]), [[2, 2], [2, 0]]);
    let mut facets = Vec::new(rt.alloc());
    // a side, a diagonal, the side again, and another side
    consider(&square, &[0, 1], &mut facets).expect(&rt, "memory");
    consider(&square, &[1, 2], &mut facets).expect(&rt, "memory");
    consider(&square, &[1, 0], &mut facets).expect(&rt, "memory");
    consider(&square, &[3, 2], &mut facets).expect(&rt, "memory");
    assert_eq!(rt; facets.as_slice(), [3, 12].as_slice());
}

#[test]
fn facets_in_the_plane_and_in_space(rt: HostRuntime) {
    let triangle = plain_facets(rt.alloc(), &[[2, 0], [0, 2], [0, 0]]).expect(&rt, "memory");
    assert_eq!(rt; triangle.as_slice(), [3, 5, 6].as_slice());
    // midpoints and positive corners of a cube with two opposite corners positive: coefficients have size 3
    let opposite = [
        [2, 0, 0],
        [0, 2, 0],
        [0, 0, 2],
        [4, 4, 2],
        [4, 2, 4],
        [2, 4, 4],
        [0, 0, 0],
        [4, 4, 4],
    ];
    let want = [11, 21, 25, 38, 42, 52, 67, 69, 70, 152, 168, 176];
    let facets = plain_facets(rt.alloc(), &opposite).expect(&rt, "memory");
    assert_eq!(rt; facets.as_slice(), want.as_slice());
    // the same with the ends of a diagonal of a side positive: facets with more than three points
    let diagonal = [
        [2, 0, 0],
        [0, 2, 0],
        [4, 2, 0],
        [2, 4, 0],
        [4, 0, 2],
        [0, 4, 2],
        [4, 0, 0],
        [0, 4, 0],
    ];
    let want = [51, 60, 81, 84, 162, 168, 207];
    let facets = plain_facets(rt.alloc(), &diagonal).expect(&rt, "memory");
    assert_eq!(rt; facets.as_slice(), want.as_slice());
}

#[test]
fn facets_in_four_dimensions(rt: HostRuntime) {
    // the corners of a hypercube
    let corners = [
        [0, 0, 0, 0],
        [2, 0, 0, 0],
        [0, 2, 0, 0],
        [2, 2, 0, 0],
        [0, 0, 2, 0],
        [2, 0, 2, 0],
        [0, 2, 2, 0],
        [2, 2, 2, 0],
        [0, 0, 0, 2],
        [2, 0, 0, 2],
        [0, 2, 0, 2],
        [2, 2, 0, 2],
        [0, 0, 2, 2],
        [2, 0, 2, 2],
        [0, 2, 2, 2],
        [2, 2, 2, 2],
    ];
    let want = [255, 3855, 13107, 21845, 43690, 52428, 61680, 65280];
    let facets = plain_facets(rt.alloc(), &corners).expect(&rt, "memory");
    assert_eq!(rt; facets.as_slice(), want.as_slice());
    // the corners of a simplex and a point inside, with the greatest coordinates
    let simplex = [
        [-32, -32, -32, -32],
        [32, -32, -32, -32],
        [-32, 32, -32, -32],
        [-32, -32, 32, -32],
        [-32, -32, -32, 32],
        [-31, -31, -31, -31],
    ];
    let facets = plain_facets(rt.alloc(), &simplex).expect(&rt, "memory");
    assert_eq!(rt; facets.as_slice(), [15, 23, 27, 29, 30].as_slice());
}
