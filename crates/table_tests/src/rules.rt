//! Rules on entries of the square, by its table.

use cell_lattice::CubeCell;
use label_rules::Figures;

#[test]
fn rules_of_the_square(rt: HostRuntime) {
    let figures = Figures::<2>::of::<CubeCell<2>>();
    // entry 6 of the table of the square, and joined the other way
    assert!(rt; figures.keeps_edges(6, &[[1, 0], [2, 3]]));
    assert!(rt; figures.keeps_off_facets(&[[1, 0], [2, 3]]));
    assert!(rt; figures.keeps_side(6, &[[1, 0], [2, 3]]));
    assert!(rt; figures.keeps_side(6, &[[2, 0], [1, 3]]));
    assert!(rt;
        !figures.keeps_side(6, &[[1, 0], [3, 2]]),
        "the second is turned to the negative corner"
    );
    // entry 1, and the same with its edges exchanged
    assert!(rt; figures.keeps_side(1, &[[0, 1]]));
    assert!(rt; !figures.keeps_side(1, &[[1, 0]]));
    assert!(rt;
        !figures.keeps_edges(1, &[]),
        "edges 0 and 1 stand in no tuple"
    );
    assert!(rt;
        !figures.keeps_edges(6, &[[1, 0], [2, 2]]),
        "an edge stands twice"
    );
    assert!(rt;
        !figures.keeps_off_facets(&[[1, 0], [2, 2]]),
        "both edges lie in one facet"
    );
}
