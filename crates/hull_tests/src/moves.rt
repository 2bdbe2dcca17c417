//! Tests of single labels and of classes.

use cube_moves::{Move, least_label, move_corner, move_edge};

#[test]
fn corners_and_edges_of_the_square(rt: HostRuntime) {
    // the axes in their order, both flipped
    let by = Move {
        axes: [0, 1],
        flips: 3,
    };
    for (corner, moved) in [(0, 3), (1, 2), (2, 1), (3, 0)] {
        assert_eq!(rt; move_corner(&by, corner), moved);
    }
    for (edge, moved) in [(0, 3), (1, 2), (2, 1), (3, 0)] {
        assert_eq!(rt; move_edge(&by, edge), moved);
    }
    // a turn: corner 1 goes to corner 2, and corner 2 goes to corner 1 flipped in axis 0
    let turn = Move {
        axes: [1, 0],
        flips: 1,
    };
    for (corner, moved) in [(0, 1), (1, 3), (2, 0), (3, 2)] {
        assert_eq!(rt; move_corner(&turn, corner), moved);
    }
}

#[test]
fn the_least_label_and_the_first_move(rt: HostRuntime) {
    let (least, by) = least_label::<2>(8);
    assert_eq!(rt; least, 1);
    assert_eq!(rt;
        by,
        Move {
            axes: [0, 1],
            flips: 3
        }
    );
}

#[test]
fn labels_that_are_their_own_least(rt: HostRuntime) {
    let square = (0..16)
        .filter(|label| least_label::<2>(*label).0 == *label)
        .count();
    assert_eq!(rt; square, 6);
    let cube = (0..256)
        .filter(|label| least_label::<3>(*label).0 == *label)
        .count();
    assert_eq!(rt; cube, 22);
    let hypercube = (0..65536)
        .filter(|label| least_label::<4>(*label).0 == *label)
        .count();
    assert_eq!(rt; hypercube, 402);
}
