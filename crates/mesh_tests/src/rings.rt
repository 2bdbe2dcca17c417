//! Rings of edges, beside the cells that have them.

ghost use Rattle.std.specs.Prelude.{◌<◌};
ghost use Rattle.iso_model.specs.Splits.{cell_count};

use cell_lattice::{CubeCell, PyramidCell, SimplexCell};
use grid_split::{Complex, Edge, Ring, Split};
use std::process::Abort;
use std::test::Fail;

// The ring of an edge of a cell.
fn ring_of<C: Split<3>>(complex: &Complex<C, 3>, cell: u64, edge: u8) -> Ring
    requires cell { cell < cell_count C.KIND complex.now }
    requires edge { edge < C.EDGES }
{
    // That there are three axes is known from here on.
    let _ = complex.cells();
    let edge = complex.edge(cell, edge);
    complex.ring(&edge)
}

// Whether a cell has an edge.
fn has_edge<C: Split<3>>(complex: &Complex<C, 3>, cell: u64, edge: &Edge<3>) -> bool
    requires cell { cell < cell_count C.KIND complex.now }
{
    for number in 0..C::EDGES as u8 {
        if complex.edge(cell, number) == *edge {
            return true;
        }
    }
    false
}

// The ring of each edge of a cell has just the cells of the complex that have the edge.
fn check_cell<C: Split<3>>(rt: &impl Abort, complex: &Complex<C, 3>, cell: u64) -> Result<(), Fail>
    requires cell { cell < cell_count C.KIND complex.now }
{
    for number in 0..C::EDGES as u8 {
        let ring = ring_of(complex, cell, number);
        let edge = complex.edge(cell, number);
        for other in 0..complex.cells() {
            let found = ring.cells.as_slice().contains(&other);
            assert_eq!(rt;
                found,
                has_edge(complex, other, &edge),
                "cell {cell}, edge {number}"
            );
        }
    }
    Ok(())
}

#[test]
fn rings_have_the_cells_at_the_edge(rt: HostRuntime) -> Result<(), Fail> {
    let cubes = Complex::<CubeCell<3>, 3>::new([4, 4, 4]);
    for cell in 0..cubes.cells() {
        check_cell(&rt, &cubes, cell)?;
    }
    let simplices = Complex::<SimplexCell<3>, 3>::new([4, 4, 4]);
    for cell in 0..simplices.cells() {
        check_cell(&rt, &simplices, cell)?;
    }
    let pyramids = Complex::<PyramidCell, 3>::new([4, 4, 4]);
    for cell in 0..pyramids.cells() {
        check_cell(&rt, &pyramids, cell)?;
    }
    Ok(())
}

#[test]
fn rings_of_cubes_and_simplices(rt: HostRuntime) -> Result<(), Fail> {
    let cubes = Complex::<CubeCell<3>, 3>::new([3, 3, 3]);
    if cubes.cells() != 8 {
        return Err("eight cubes".into());
    }
    // between the corners 3 and 7, and between 0 and 4
    let inner = ring_of(&cubes, 0, 7);
    assert!(rt; inner.closed);
    assert_eq!(rt; inner.cells.len(), 4);
    for cell in 0..4 {
        assert!(rt; inner.cells.as_slice().contains(&cell));
    }
    let outer = ring_of(&cubes, 0, 4);
    assert!(rt; !outer.closed);
    assert_eq!(rt; outer.cells.as_slice(), [0].as_slice());
    // from the first corner of the last cube to its last one
    let simplices = Complex::<SimplexCell<3>, 3>::new([3, 3, 3]);
    if simplices.cells() != 48 {
        return Err("48 simplices".into());
    }
    let diagonal = ring_of(&simplices, 42, 2);
    assert!(rt; diagonal.closed);
    assert_eq!(rt; diagonal.cells.len(), 6);
    for cell in 42..48 {
        assert!(rt; diagonal.cells.as_slice().contains(&cell));
    }
    Ok(())
}
