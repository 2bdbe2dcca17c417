//! The cells of small grids, and their neighbours.

use cell_lattice::{CubeCell, PyramidCell, SimplexCell};
use grid_split::{Complex, Split};
use std::test::Fail;

#[test]
fn cubes_and_their_neighbours(rt: HostRuntime) -> Result<(), Fail> {
    let cubes = Complex::<CubeCell<3>, 3>::new([3, 3, 3]);
    assert_eq!(rt; cubes.cells(), 8);
    assert_eq!(rt; cubes.neighbour(0, 1), Some(1));
    assert_eq!(rt; cubes.neighbour(0, 0), None);
    assert_eq!(rt; cubes.corner(7, 0).as_slice(), [2, 2, 2].as_slice());
    Ok(())
}

#[test]
fn simplices_and_their_neighbours(rt: HostRuntime) -> Result<(), Fail> {
    let simplices = Complex::<SimplexCell<3>, 3>::new([2, 2, 2]);
    assert_eq!(rt; simplices.cells(), 6);
    assert_eq!(rt; simplices.neighbour(0, 1), Some(2));
    assert_eq!(rt; simplices.neighbour(0, 2), Some(1));
    assert_eq!(rt; simplices.neighbour(0, 0), None);
    assert_eq!(rt; simplices.neighbour(0, 3), None);
    assert_eq!(rt; simplices.odd(1), true);
    Ok(())
}

const PARITIES: [bool; 6] = [false, true, true, false, false, true];

#[test]
fn parities_of_the_printed_tables(rt: HostRuntime) -> Result<(), Fail> {
    for rank in 0..6u32 {
        assert_eq!(rt;
            <SimplexCell<3> as Split<3>>::odd(rank),
            PARITIES[rank as usize]
        );
        assert_eq!(rt;
            <PyramidCell as Split<3>>::odd(rank),
            PARITIES[rank as usize]
        );
    }
    Ok(())
}

#[test]
fn pyramids_of_one_cube(rt: HostRuntime) -> Result<(), Fail> {
    let pyramids = Complex::<PyramidCell, 3>::new([2, 2, 2]);
    assert_eq!(rt; pyramids.cells(), 6);
    assert_eq!(rt; pyramids.corner(1, 3).as_slice(), [2, 2, 2].as_slice());
    assert_eq!(rt; pyramids.corner(5, 4).as_slice(), [1, 1, 1].as_slice());
    assert_eq!(rt; pyramids.edge(1, 7).low.as_slice(), [1, 1, 1].as_slice());
    assert_eq!(rt; pyramids.neighbour(0, 0), None);
    assert_eq!(rt; pyramids.neighbour(0, 1), Some(2));
    Ok(())
}

#[test]
fn a_grid_with_a_size_of_one_has_no_cells(rt: HostRuntime) -> Result<(), Fail> {
    assert_eq!(rt; Complex::<CubeCell<2>, 2>::new([1, 7]).cells(), 0);
    assert_eq!(rt; Complex::<SimplexCell<4>, 4>::new([2, 2, 1, 2]).cells(), 0);
    assert_eq!(rt; Complex::<PyramidCell, 3>::new([2, 2, 1]).cells(), 0);
    Ok(())
}
