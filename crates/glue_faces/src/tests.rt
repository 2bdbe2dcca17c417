//! The laws, called once of each kind of cell and of a small grid.

ghost use Rattle.std.specs.Prelude.{◌≡◌, ◌∷◌, [], IfOk};
ghost use Rattle.iso_model.specs.Values.{IsRegularGrid};

use crate::{face_law, share_law};
use cell_lattice::{CubeCell, PyramidCell, SimplexCell};
use grid_split::Complex;
use nrrd_raw::Grid;
use std::alloc::Global;
use std::test::Fail;
use table_check::{CertifyFault, certify};
use table_file::{AnyTable, Kind, decode};
use worked_tables::SQUARE;

/// The grid of one square with one sample above the others.
fn one_square(alloc: Global) -> Result<Grid, Fail>
    ensures regular { IfOk result IsRegularGrid }
    ensures sizes { IfOk result (λ grid. grid.sizes ≡ 2 ∷ 2 ∷ []) }
{
    let samples = Vec::from_slice(alloc, &[10, 0, 0, 0])?;
    Ok(Grid {
        dims: 2,
        sizes: [2, 2, 1, 1],
        samples,
    })
}

#[test]
fn the_share_law_is_one_of_each_kind(rt: HostRuntime) -> Result<(), Fail> {
    let squares = Complex::<CubeCell<2>, 2>::new([3, 2]);
    share_law(&squares, 0, 1, 0b0100);
    let simplices = Complex::<SimplexCell<4>, 4>::new([2, 2, 2, 2]);
    share_law(&simplices, 23, 0, 0);
    let pyramids = Complex::<PyramidCell, 3>::new([2, 2, 2]);
    share_law(&pyramids, 0, 5, 0b1000_0001);
    assert_eq!(rt; squares.cells(), 2);
    Ok(())
}

#[test]
fn the_face_law_is_one_of_accepted_tables(rt: HostRuntime) -> Result<(), Fail> {
    let alloc = rt.alloc();
    let AnyTable::T2(table) = decode(alloc, &SQUARE)? else {
        return Err("no table of two dimensions".into());
    };
    if table.kind() != Kind::Cube {
        return Err("no table of the square".into());
    }
    match certify::<CubeCell<2>, 2>(alloc, table) {
        Ok(checked) => {
            let grid = one_square(alloc)?;
            let squares = Complex::new([2, 2]);
            face_law(&checked, &squares, &grid, 5, None);
            face_law(&checked, &squares, &grid, 5, Some(10));
            assert_eq!(rt; squares.cells(), 1);
            Ok(())
        }
        Err(
            CertifyFault::Refused {
                table: _table,
                label: _,
                rule: _,
            },
        ) => Err("a refused table".into()),
        Err(CertifyFault::Memory { table: _table }) => Err("no memory".into()),
    }
}
