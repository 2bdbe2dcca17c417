//! The laws, called once: of an edge of each kind of cell, and of an accepted table and a small grid.

ghost use Rattle.std.specs.Prelude.{◌≡◌, ◌<◌, ◌∷◌, [], IfOk};
ghost use Rattle.iso_model.specs.Splits.{cell_count};
ghost use Rattle.iso_model.specs.Values.{IsRegularGrid};

use crate::{link_law, ring_law};
use cell_lattice::{CubeCell, PyramidCell, SimplexCell};
use grid_split::{Complex, Split};
use nrrd_raw::Grid;
use std::alloc::Global;
use std::test::Fail;
use table_check::{CertifyFault, certify};
use table_file::{AnyTable, Kind, decode};
use worked_tables::TETRAHEDRON;

/// The grid of one cube with one sample above the others.
fn one_cube(alloc: Global) -> Result<Grid, Fail>
    ensures regular { IfOk result IsRegularGrid }
    ensures sizes { IfOk result (λ grid. grid.sizes ≡ 2 ∷ 2 ∷ 2 ∷ []) }
{
    let samples = Vec::from_slice(alloc, &[10, 0, 0, 0, 0, 0, 0, 0])?;
    Ok(Grid {
        dims: 3,
        sizes: [2, 2, 2, 1],
        samples,
    })
}

/// The ring law at an edge of a cell.
fn ring_law_at<C: Split<3>>(complex: &Complex<C, 3>, cell: u64, edge: u8)
    requires cell { cell < cell_count C.KIND complex.now }
    requires edge { edge < C.EDGES }
{
    // That there are three axes is known from here on.
    let _ = complex.cells();
    let edge = complex.edge(cell, edge);
    ring_law(complex, &edge);
}

#[test]
fn the_ring_law_is_one_of_each_kind(rt: HostRuntime) -> Result<(), Fail> {
    let cubes = Complex::<CubeCell<3>, 3>::new([3, 3, 3]);
    ring_law_at(&cubes, 7, 4);
    let simplices = Complex::<SimplexCell<3>, 3>::new([2, 2, 2]);
    ring_law_at(&simplices, 5, 2);
    let pyramids = Complex::<PyramidCell, 3>::new([2, 2, 2]);
    ring_law_at(&pyramids, 0, 7);
    assert_eq!(rt; cubes.cells(), 8);
    Ok(())
}

#[test]
fn the_link_law_is_one_of_accepted_tables(rt: HostRuntime) -> Result<(), Fail> {
    let alloc = rt.alloc();
    let AnyTable::T3(table) = decode(alloc, &TETRAHEDRON)? else {
        return Err("no table of three dimensions".into());
    };
    if table.kind() != Kind::Simplex {
        return Err("no table of the tetrahedron".into());
    }
    match certify::<SimplexCell<3>, 3>(alloc, table) {
        Ok(checked) => {
            let grid = one_cube(alloc)?;
            let simplices = Complex::new([2, 2, 2]);
            link_law(&checked, &simplices, &grid, 5, None);
            link_law(&checked, &simplices, &grid, 5, Some(10));
            assert_eq!(rt; simplices.cells(), 6);
            Ok(())
        }
        Err(
            CertifyFault::Refused {
                table: _table,
                label: _,
                rule: _,
            },
        ) => Err("a refused table".into()),
        Err(CertifyFault::Memory { table: _table }) => Err("no memory".into()),
    }
}
