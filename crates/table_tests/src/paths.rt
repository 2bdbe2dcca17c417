//! The path rule at entries of the cube of three dimensions.

use path_rule::keeps_path;

/// The edges of the six facets of the cube. Edge 0 joins corners 0 and 1, edge 1 corners 0 and 2, edge 2 corners 1
/// and 3, edge 3 corners 2 and 3; edges 4 to 7 join corners 0 to 3 with corners 4 to 7; edges 8 to 11 are edges 0 to 3
/// with 4 added to their corners.
const FACETS: [u32; 6] = [
    0b0010_0101_0010,
    0b0100_1010_0100,
    0b0001_0011_0001,
    0b1000_1100_1000,
    0b0000_0000_1111,
    0b1111_0000_0000,
];

#[test]
fn paths_at_the_edges_of_the_cube(rt: HostRuntime) {
    // Corner 0 is positive.
    assert!(rt; keeps_path(&FACETS, 0b0000_0001_0011, &[[0u8, 1, 4]]));
    // Corners 1 and 2 are positive.
    let tuples = [[0u8, 1, 6], [0, 6, 5], [2, 6, 3], [2, 5, 6]];
    assert!(rt; keeps_path(&FACETS, 0b0000_0110_1111, &tuples));
    // Corners 1, 2 and 4 are positive: two paths at edge 0.
    let tuples = [[0u8, 2, 5], [1, 6, 3], [4, 8, 9], [0, 1, 4]];
    assert!(rt; !keeps_path(&FACETS, 0b0011_0111_1111, &tuples));
    // Only in three dimensions triangles are asked for.
    assert!(rt; keeps_path(&FACETS, 0b1111, &[[0u8, 1], [2, 3]]));
}
