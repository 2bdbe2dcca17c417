//! Turns of small rows, and half-spaces through points.

use small_turn::{HalfSpace, hyper, turn};

#[test]
fn turns_of_known_determinants(rt: HostRuntime) {
    for (rows, want) in [
        ([[1, 0], [0, 1]], 1),
        ([[3, 5], [3, 5]], 0),
        ([[64, -64], [64, 64]], 8192),
    ] {
        assert_eq!(rt; turn(&rows), want);
    }
    // the Vandermonde determinant of 2, 3, 4, and an odd order of the axes
    for (rows, want) in [
        ([[1, 2, 4], [1, 3, 9], [1, 4, 16]], 2),
        ([[0, 2, 0], [2, 0, 0], [0, 0, 2]], -8),
    ] {
        assert_eq!(rt; turn(&rows), want);
    }
    // 64 times a Hadamard matrix has the greatest determinant that the entries allow
    for (rows, want) in [
        (
            [[1, 2, 3, 4], [5, 6, 7, 9], [2, -3, 0, 1], [4, 4, 1, 2]],
            -51,
        ),
        (
            [
                [64, 64, 64, 64],
                [64, -64, 64, -64],
                [64, 64, -64, -64],
                [64, -64, -64, 64],
            ],
            268435456,
        ),
    ] {
        assert_eq!(rt; turn(&rows), want);
    }
}

#[test]
fn half_spaces_through_points(rt: HostRuntime) {
    for (points, normal, bound) in [([[0, 0], [2, 0]], [0, 2], 0), ([[2, 1], [2, 1]], [0, 0], 0)] {
        assert_eq!(rt; hyper(&points), HalfSpace { normal, bound });
    }
    let far = hyper(&[[32, -32, 32], [-32, 32, 32], [32, 32, -32]]);
    assert_eq!(rt;
        far,
        HalfSpace {
            normal: [-4096, -4096, -4096],
            bound: -131072
        }
    );
    let tilted = hyper(&[[2, 0, 0, 0], [0, 2, 0, 0], [0, 0, 2, 0], [0, 0, 0, 2]]);
    assert_eq!(rt;
        tilted,
        HalfSpace {
            normal: [-8, -8, -8, -8],
            bound: -16
        }
    );
}
