//! Labels and edges of the cells of small grids, whose samples are letters. The isovalue is the letter m, 109.

ghost use Rattle.std.specs.Prelude.{◌≡◌, ℕ, ◌^◌, ◌<◌, None, length, slice_index, IfOk};
ghost use Rattle.iso_model.specs.Values.{IsRegularGrid};

use crate::{CubeSteps, SignedCube, is_bipolar};
use cell_lattice::{CubeCell, PyramidCell, SimplexCell};
use grid_split::Edge;
use iso_base::{Failed, Shelf};
use mixed_cubes::mixed_cubes;
use nrrd_raw::{Grid, read_grid};
use std::alloc::Global;
use std::process::Abort;
use std::test::Fail;

/// One file.
#[derive(Drop)]
struct OneFile<'a> {
    bytes: &'a [u8],
}

impl Shelf for OneFile<'_> {
    ghost files = { λ _. None };

    ghost rest = { λ _. None };

    ghost faults = { λ _. 0 };

    ghost sound = { λ _. ⊥ };

    fn begin(&mut self, _: &str) -> Result<(), Failed> {
        Ok(())
    }

    fn take(&mut self, buf: &mut [u8]) -> Result<usize, Failed> {
        let count = self.bytes.len().min(buf.len());
        buf[..count].copy_from_slice(&self.bytes[..count]);
        self.bytes = &self.bytes[count..];
        Ok(count)
    }

    ghost sound_tells = { λ _ none. absurd none };

    ghost rest_told = { λ _. (λ h. h, λ h. h) };
}

/// A grid of D axes with a sample for each letter.
fn grid_of<const D: usize>(alloc: Global, sizes: &str, samples: &str) -> Result<Grid, Fail>
    ensures regular { IfOk result IsRegularGrid }
    ensures axes { IfOk result (λ grid. length grid.sizes ≡ D) }
{
    let text = format!(in alloc;
        "NRRD0001\ntype: uint8\ndimension: {D}\nsizes: {sizes}\nencoding: raw\n\n{samples}"
    )?;
    let mut file = OneFile {
        bytes: text.as_bytes(),
    };
    match read_grid(alloc, &mut file) {
        Ok(grid) => if grid.dims as usize == D {
            Ok(grid)
        } else {
            Err("other axes")?
        },
        Err(_) => Err("no grid")?,
    }
}

/// The first mixed cube of a grid.
fn mixed_cube<const D: usize>(
    rt: &impl Abort,
    alloc: Global,
    grid: &Grid,
) -> Result<SignedCube<D>, Fail>
    requires regular { IsRegularGrid grid.now }
    requires axes { length grid.now.sizes ≡ D }
    ensures few { IfOk result (λ cube. (i : ℕ) → i < D → slice_index cube.place i < 2 ^ 27) }
{
    let cubes = mixed_cubes(alloc, grid, 109)?;
    assert!(rt; cubes.len() > 0);
    Ok(SignedCube::read(grid, &CubeSteps::new(grid), cubes[0], 109))
}

#[test]
fn cells_of_a_cube_have_their_labels_from_its_points(rt: HostRuntime) -> Result<(), Fail> {
    let simplices = [2, 2, 0, 4, 2, 6];
    let pyramids = [12, 1, 6, 4, 2, 5];

    // Corners 1, 4 and 6 are positive. The sum is 8 times 109, and then one less.
    for (samples, centre) in [("jrjjrjrj", 16), ("jqjjrjrj", 0)] {
        let grid = grid_of::<3>(rt.alloc(), "2 2 2", samples)?;
        let cube = mixed_cube::<3>(&rt, rt.alloc(), &grid)?;
        assert_eq!(rt; cube.label::<CubeCell<3>>(0), 82);
        for rank in 0..6 {
            let simplex = cube.label::<SimplexCell<3>>(rank);
            assert_eq!(rt; simplex, simplices[rank as usize], "simplex {rank}");
            let pyramid = cube.label::<PyramidCell>(rank);
            assert_eq!(rt; pyramid, pyramids[rank as usize] + centre, "pyramid {rank}");
        }
    }
    Ok(())
}

#[test]
fn edges_of_a_cube_stand_at_its_place(rt: HostRuntime) -> Result<(), Fail> {
    let cases = [
        ("3 3", "aaaaaaaaz", [2, 2], [4, 2], [2, 4], 8),
        ("4 2", "aaazaaaa", [4, 0], [6, 0], [4, 2], 2),
    ];
    for (sizes, samples, low, along, across, label) in cases {
        let grid = grid_of::<2>(rt.alloc(), sizes, samples)?;
        let cube = mixed_cube::<2>(&rt, rt.alloc(), &grid)?;
        let first = Edge { low, high: along };
        let second = Edge { low, high: across };
        assert_eq!(rt; cube.label::<CubeCell<2>>(0), label, "{samples}");
        assert_eq!(rt; cube.edge::<CubeCell<2>>(0, 0), first, "{samples}");
        assert_eq!(rt; cube.edge::<CubeCell<2>>(0, 1), second, "{samples}");
    }
    Ok(())
}

#[test]
fn an_edge_is_bipolar_where_its_ends_differ(rt: HostRuntime) {
    assert!(rt; is_bipolar::<CubeCell<2>, 2>(8, 3));
    assert!(rt; is_bipolar::<CubeCell<2>, 2>(7, 2));
    assert!(rt; !is_bipolar::<CubeCell<2>, 2>(8, 0));
    assert!(rt; !is_bipolar::<CubeCell<2>, 2>(7, 1));
}
