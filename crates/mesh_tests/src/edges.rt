//! Signs of values, crossings and lists of edges in small grids.

ghost use Rattle.std.specs.Prelude.{◌≡◌, None, length, IfOk};
ghost use Rattle.iso_model.specs.Values.{IsRegularGrid};

use cell_lattice::{CubeCell, PyramidCell};
use edge_vertex::{bipolar, crossing, label_of, positive, value_at};
use grid_split::{Complex, Edge};
use iso_base::{Failed, Shelf};
use nrrd_raw::{Grid, read_grid};
use std::alloc::Global;
use std::test::Fail;

#[test]
fn an_equal_value_is_positive(rt: HostRuntime) {
    assert!(rt; positive(40, 5));
    assert!(rt; !positive(39, 5));
    assert!(rt; positive(-24, -3));
    assert!(rt; !positive(-25, -3));
}

#[test]
fn crossings_are_rounded_down(rt: HostRuntime) {
    let along = Edge {
        low: [0, 0],
        high: [2, 0],
    };
    assert_eq!(rt; crossing(&along, 0, 24, 1), [333_333, 0]);
    assert_eq!(rt; crossing(&along, 40, 0, 5), [0, 0]);
    let from_centre = Edge {
        low: [1, 1, 1],
        high: [0, 0, 2],
    };
    assert_eq!(rt;
        crossing(&from_centre, 8, 64, 5),
        [214_285, 214_285, 785_714]
    );
}

/// One file.
#[derive(Drop)]
struct OneFile<'a> {
    bytes: &'a [u8],
}

impl Shelf for OneFile<'_> {
    ghost files = { λ _. None };

    ghost rest = { λ _. None };

    ghost faults = { λ _. 0 };

    ghost sound = { λ _. ⊥ };

    fn begin(&mut self, _: &str) -> Result<(), Failed> {
        Ok(())
    }

    fn take(&mut self, buf: &mut [u8]) -> Result<usize, Failed> {
        let count = self.bytes.len().min(buf.len());
        buf[..count].copy_from_slice(&self.bytes[..count]);
        self.bytes = &self.bytes[count..];
        Ok(count)
    }

    ghost sound_tells = { λ _ none. absurd none };

    ghost rest_told = { λ _. (λ h. h, λ h. h) };
}

/// A grid with a sample for each character.
fn grid_of(alloc: Global, sizes: &str, samples: &str) -> Result<Grid, Fail>
    ensures { IfOk result IsRegularGrid }
{
    let text = format!(in alloc; "NRRD0001\ntype: uint8\nencoding: raw\n{sizes}\n\n{samples}")?;
    let grid = read_grid(
        alloc,
        &mut OneFile {
            bytes: text.as_bytes(),
        },
    )?;
    Ok(grid)
}

fn squares_of(grid: &Grid) -> Complex<CubeCell<2>, 2>
    requires regular { IsRegularGrid grid.now }
    requires two { length grid.now.sizes ≡ 2 }
    ensures { result ≡ grid.now.sizes }
{
    Complex::new([grid.sizes[0], grid.sizes[1]])
}

fn pyramids_of(grid: &Grid) -> Complex<PyramidCell, 3>
    requires regular { IsRegularGrid grid.now }
    requires three { length grid.now.sizes ≡ 3 }
    ensures { result ≡ grid.now.sizes }
{
    Complex::new([grid.sizes[0], grid.sizes[1], grid.sizes[2]])
}

/// The four edges of a square, in ascending order of midpoints.
const SQUARE: [Edge<2>; 4] = [
    Edge {
        low: [0, 0],
        high: [2, 0],
    },
    Edge {
        low: [0, 0],
        high: [0, 2],
    },
    Edge {
        low: [2, 0],
        high: [2, 2],
    },
    Edge {
        low: [0, 2],
        high: [2, 2],
    },
];

#[test]
fn bipolar_edges_ascend_by_midpoints(rt: HostRuntime) -> Result<(), Fail> {
    for (samples, count) in [("\n\0\0\0", 2), ("\0\n\n\0", 4)] {
        let grid = grid_of(rt.alloc(), "dimension: 2\nsizes: 2 2", samples)?;
        assert_eq!(rt; grid.dims, 2);
        let edges = bipolar(rt.alloc(), &squares_of(&grid), &grid, 5)?;
        assert_eq!(rt; edges.len(), count);
        for (number, edge) in SQUARE.iter().enumerate() {
            let number = number as u32;
            if number < edges.len() {
                assert_eq!(rt; edges.edge(number), *edge);
                assert_eq!(rt; edges.place(edge), Some(number));
            } else {
                assert_eq!(rt; edges.place(edge), None);
            }
        }
    }
    Ok(())
}

#[test]
fn the_centre_of_a_cube_has_the_sum_of_its_samples(rt: HostRuntime) -> Result<(), Fail> {
    let samples = "\x08\0\0\0\0\0\0\0";
    let grid = grid_of(rt.alloc(), "dimension: 3\nsizes: 2 2 2", samples)?;
    assert_eq!(rt; grid.dims, 3);
    assert_eq!(rt; grid.sizes, [2, 2, 2, 1]);
    assert_eq!(rt; value_at(&grid, &[0, 0, 0]), 64);
    assert_eq!(rt; value_at(&grid, &[2, 2, 2]), 0);
    assert_eq!(rt; value_at(&grid, &[1, 1, 1]), 8);

    // At 5 the sample 8 is positive, and the centre, 1 on the average, is not.
    let pyramids = pyramids_of(&grid);
    for (cell, label) in [(0, 1), (1, 0), (2, 1), (3, 0), (4, 1), (5, 0)] {
        assert!(rt; cell < pyramids.cells());
        assert_eq!(rt; label_of(&pyramids, cell, &grid, 5), label);
    }
    Ok(())
}
