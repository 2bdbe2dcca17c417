//! Rules on entries of the square.

use edge_sets::{bipolar_set, keeps_edges, keeps_off_facets};

/// The edges of the four facets of the square: 0 joins corners 0 and 1, 1 joins 0 and 2, 2 joins 1 and 3, 3 joins 2
/// and 3.
const FACETS: [u32; 4] = [0b0010, 0b0100, 0b0001, 0b1000];

#[test]
fn rules_of_the_square(rt: HostRuntime) {
    let ends = [(0, 1), (0, 2), (1, 3), (2, 3)];
    assert_eq!(rt; bipolar_set(6, &ends), 0b1111);
    assert_eq!(rt; bipolar_set(8, &ends), 0b1100);
    assert_eq!(rt; bipolar_set(15, &ends), 0);
    // The bipolar edges of label 6 are all four, those of label 8 are 2 and 3.
    assert!(rt; keeps_edges(0b1111, &[[1u8, 0], [2, 3]]));
    assert!(rt;
        !keeps_edges(0b1111, &[[1u8, 0]]),
        "two edges stand in no tuple"
    );
    assert!(rt; keeps_edges(0b1100, &[[3u8, 2]]));
    assert!(rt;
        !keeps_edges(0b1100, &[[3u8, 2], [0, 1]]),
        "edges 0 and 1 are not bipolar"
    );
    assert!(rt;
        !keeps_edges(0b1100, &[[3u8, 2], [2, 2]]),
        "an edge stands twice"
    );
    assert!(rt; keeps_off_facets(&FACETS, &[[1u8, 0], [2, 3]]));
    assert!(rt;
        !keeps_off_facets(&FACETS, &[[1u8, 0], [3, 3]]),
        "both edges lie in facet 3"
    );
}
