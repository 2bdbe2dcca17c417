//! Entries of single labellings.

use case_patch::{hull, patch, patch_moved};
use cell_lattice::{CubeCell, PyramidCell, SimplexCell};
use cube_moves::least_label;

#[test]
fn hull_of_opposite_corners(rt: HostRuntime) {
    let facets = hull::<CubeCell<3>, 3>(rt.alloc(), 129).expect(&rt, "memory");
    let want = [11, 21, 25, 38, 42, 52, 67, 69, 70, 152, 168, 176];
    assert_eq!(rt; facets.as_slice(), want.as_slice());
}

#[test]
fn entries_in_space(rt: HostRuntime) {
    let diagonal = [[0, 1, 6], [0, 6, 5], [2, 6, 3], [2, 5, 6]];
    let opposite = [
        [0, 7, 1],
        [0, 4, 10],
        [0, 10, 7],
        [1, 11, 4],
        [1, 7, 11],
        [4, 11, 10],
    ];
    for (label, want) in [
        (0, [].as_slice()),
        (6, diagonal.as_slice()),
        (129, opposite.as_slice()),
        (255, [].as_slice()),
    ] {
        let entry = patch::<CubeCell<3>, 3>(rt.alloc(), label).expect(&rt, "memory");
        assert_eq!(rt; entry.as_slice(), want);
    }
    for (label, want) in [(1, [[0, 4, 1]]), (2, [[0, 2, 5]])] {
        let entry = patch::<PyramidCell, 3>(rt.alloc(), label).expect(&rt, "memory");
        assert_eq!(rt; entry.as_slice(), want.as_slice());
    }
}

#[test]
fn entries_of_one_positive_corner(rt: HostRuntime) {
    let triangle = patch::<SimplexCell<2>, 2>(rt.alloc(), 1).expect(&rt, "memory");
    assert_eq!(rt; triangle.as_slice(), [[0, 1]].as_slice());
    let tetrahedron = patch::<SimplexCell<3>, 3>(rt.alloc(), 1).expect(&rt, "memory");
    assert_eq!(rt; tetrahedron.as_slice(), [[0, 2, 1]].as_slice());
    let hypercube = patch::<CubeCell<4>, 4>(rt.alloc(), 1).expect(&rt, "memory");
    assert_eq!(rt; hypercube.as_slice(), [[0, 1, 4, 12]].as_slice());
}

#[test]
fn entry_from_the_hull_of_the_least_label(rt: HostRuntime) {
    let (least, by) = least_label::<2>(8);
    let class = hull::<CubeCell<2>, 2>(rt.alloc(), least).expect(&rt, "memory");
    assert_eq!(rt; class.as_slice(), [3, 5, 6].as_slice());
    let entry = patch_moved::<CubeCell<2>, 2>(rt.alloc(), 8, &by, &class).expect(&rt, "memory");
    assert_eq!(rt; entry.as_slice(), [[3, 2]].as_slice());
}
