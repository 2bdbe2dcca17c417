//! The rule of seams on tables of the square and of the simplex of three dimensions.

ghost use Rattle.std.specs.Prelude.{◌≡◌};

use cell_lattice::{Cell, CubeCell, Kind, SimplexCell};
use face_tallies::{TallyRoom, tally};
use iso_base::Memory;
use seam_traces::{Traces, cell_seams};
use std::alloc::Global;
use std::test::Fail;
use table_file::Table;

/// The entries of the square. Its facets 1, 0 and 3, 2 may be the same points, and the sums then add up to 0.
const SQUARE: [&[[u8; 2]]; 16] = [
    &[],
    &[[0, 1]],
    &[[2, 0]],
    &[[2, 1]],
    &[[1, 3]],
    &[[0, 3]],
    &[[1, 0], [2, 3]],
    &[[2, 3]],
    &[[3, 2]],
    &[[0, 2], [3, 1]],
    &[[3, 0]],
    &[[3, 1]],
    &[[1, 2]],
    &[[0, 2]],
    &[[1, 0]],
    &[],
];

/// The first label that breaks the rule of seams.
fn first_failing<C: Cell<D>, const D: usize>(
    alloc: Global,
    table: &Table<D>,
) -> Result<Option<u32>, Memory>
    requires { table.now.kind ≡ C.KIND }
{
    let seams = cell_seams::<C, D>(alloc)?;
    let traces = Traces::<C, D>::gather(alloc, table)?;
    let mut room = TallyRoom::new(alloc);
    let mut tallies = Vec::new(alloc);
    for label in 0..table.labels() {
        tally(table.tuples(label), &mut room, &mut tallies)?;
        if !traces.keeps_seams(&seams, label, &tallies) {
            return Ok(Some(label));
        }
    }
    Ok(None)
}

#[test]
fn tables_of_the_square(rt: HostRuntime) -> Result<(), Fail> {
    // One entry, and the first label that fails with it in the table.
    let cases = [
        (6, [[1, 0], [2, 3]].as_slice(), None),
        // The two edges at each positive corner are joined, or those at each negative one.
        (6, [[2, 0], [1, 3]].as_slice(), None),
        // The negative corner of edge 1 now has a face there, which label 0 has not.
        (8, [[3, 2], [0, 1]].as_slice(), Some(0)),
        (1, [[1, 0]].as_slice(), Some(1)),
    ];
    for (changed, entry, failing) in cases {
        let mut entries = Vec::new(rt.alloc());
        for label in 0..16 {
            let tuples = if label == changed {
                entry
            } else {
                SQUARE[label]
            };
            entries.push(Vec::from_slice(rt.alloc(), tuples)?)?;
        }
        match Table::<2>::from_entries(Kind::Cube, entries) {
            Ok(table) => assert_eq!(rt;
                first_failing::<CubeCell<2>, 2>(rt.alloc(), &table)?,
                failing
            ),
            Err(_) => assert!(rt; false),
        }
    }
    Ok(())
}

#[test]
fn tables_of_the_simplex(rt: HostRuntime) -> Result<(), Fail> {
    // With no triangle in any entry, all traces are alike; with one at label 1, those of labels 1 and 3 in facet 1 differ.
    for (triangles, failing) in [(0, None), (1, Some(1))] {
        let mut entries = Vec::new(rt.alloc());
        for label in 0..16 {
            let mut tuples = Vec::new(rt.alloc());
            if label == 1 && triangles == 1 {
                tuples.push([0, 2, 1])?;
            }
            entries.push(tuples)?;
        }
        match Table::<3>::from_entries(Kind::Simplex, entries) {
            Ok(table) => assert_eq!(rt;
                first_failing::<SimplexCell<3>, 3>(rt.alloc(), &table)?,
                failing
            ),
            Err(_) => assert!(rt; false),
        }
    }
    Ok(())
}
