//! Spectra of small grids.

ghost use Rattle.std.specs.Prelude.{◌^◌, ◌≤◌, ◌≤ℤ◌, ◌-ℤ◌, unsigned_abs};

use cell_lattice::{CubeCell, PyramidCell, SimplexCell};
use edge_spectrum::spectrum;
use grid_split::{Complex, Split};
use nrrd_raw::Grid;
use std::alloc::Global;
use std::test::Fail;

/// The spectrum of a grid of these sizes and samples.
fn spectrum_of<C: Split<D>, const D: usize>(
    alloc: Global,
    sizes: [u64; D],
    samples: &[i64],
    from: i64,
    to: i64,
) -> Result<Vec<u64>, Fail>
    requires from { unsigned_abs from ≤ 2 ^ 40 }
    requires to { unsigned_abs to ≤ 2 ^ 40 }
    requires range { from ≤ℤ to }
    requires few { unsigned_abs (to -ℤ from) ≤ 65535 }
{
    let Ok(grid) = Grid::new(&sizes, Vec::from_slice(alloc, samples)?) else {
        return Err("no grid".into());
    };
    let complex = Complex::<C, D>::new(sizes);
    let counts = spectrum(alloc, &complex, &grid, from, to).map_err(|_| "memory")?;
    Ok(counts)
}

#[test]
fn squares_and_triangles(rt: HostRuntime) -> Result<(), Fail> {
    let corner = [10, 0, 0, 0];
    let counts = spectrum_of::<CubeCell<2>, 2>(rt.alloc(), [2, 2], &corner, 0, 2)?;
    assert_eq!(rt; counts.as_slice(), [0, 2, 2].as_slice());
    let counts = spectrum_of::<CubeCell<2>, 2>(rt.alloc(), [2, 2], &corner, 10, 11)?;
    assert_eq!(rt; counts.as_slice(), [2, 0].as_slice());
    let counts = spectrum_of::<SimplexCell<2>, 2>(rt.alloc(), [2, 2], &corner, 5, 5)?;
    assert_eq!(rt; counts.as_slice(), [3].as_slice());
    // Without cubes there is no edge.
    let counts = spectrum_of::<CubeCell<2>, 2>(rt.alloc(), [1, 4], &corner, 0, 2)?;
    assert_eq!(rt; counts.as_slice(), [0, 0, 0].as_slice());
    // The least and the greatest sample, and isovalues around them.
    let ends = [-2147483648, 4294967295, -2147483648, 4294967295];
    let least = spectrum_of::<CubeCell<2>, 2>(rt.alloc(), [2, 2], &ends, -2147483648, -2147483647)?;
    assert_eq!(rt; least.as_slice(), [0, 2].as_slice());
    let most = spectrum_of::<CubeCell<2>, 2>(rt.alloc(), [2, 2], &ends, 4294967295, 4294967296)?;
    assert_eq!(rt; most.as_slice(), [2, 0].as_slice());
    Ok(())
}

#[test]
fn cubes_simplices_and_pyramids(rt: HostRuntime) -> Result<(), Fail> {
    let corner = [8, 0, 0, 0, 0, 0, 0, 0];
    let pyramids = spectrum_of::<PyramidCell, 3>(rt.alloc(), [2, 2, 2], &corner, 1, 2)?;
    assert_eq!(rt; pyramids.as_slice(), [10, 4].as_slice());
    let cubes = spectrum_of::<CubeCell<3>, 3>(rt.alloc(), [2, 2, 2], &corner, 1, 2)?;
    assert_eq!(rt; cubes.as_slice(), [3, 3].as_slice());
    let simplices = spectrum_of::<SimplexCell<3>, 3>(rt.alloc(), [2, 2, 2], &corner, 0, 1)?;
    assert_eq!(rt; simplices.as_slice(), [0, 7].as_slice());
    let corner = [10, 0, 0, 0, 0, 0, 0, 0, 0, 0, 0, 0, 0, 0, 0, 0];
    let counts = spectrum_of::<CubeCell<4>, 4>(rt.alloc(), [2, 2, 2, 2], &corner, 5, 5)?;
    assert_eq!(rt; counts.as_slice(), [4].as_slice());
    Ok(())
}

#[test]
fn all_isovalues_of_sixteen_bits(rt: HostRuntime) -> Result<(), Fail> {
    let row = [-5, 0, -5, 0];
    let counts = spectrum_of::<CubeCell<2>, 2>(rt.alloc(), [2, 2], &row, -32768, 32767)?;
    assert_eq!(rt; counts.len(), 65536);
    // From -4 to 0 one end of each edge along the rows is below, and the other is not.
    for (place, count) in counts.iter().enumerate() {
        let crossed = (32764..=32768).contains(&place);
        assert_eq!(rt; *count, if crossed { 2 } else { 0 }, "at {place}");
    }
    Ok(())
}
