//! Meshes of small grids.

ghost use Rattle.std.specs.Prelude.{◌≡◌, ℕ, ◌≤◌, ◌<◌, true, false, None, IsTrue, length, slice_index_or, IfOk};
ghost use Rattle.iso_model.specs.Values.{IsRegularGrid};
ghost use Rattle.iso_model.specs.Cells.{edge_ends};
ghost use Rattle.mesh_placing.specs.Placing.{EachKeepsEdges};

use crate::place;
use cell_lattice::{CubeCell, SimplexCell};
use edge_sets::{bipolar_set, keeps_edges};
use grid_split::Split;
use iso_base::{Failed, Shelf};
use mesh_laws::Mesh;
use nrrd_raw::{Grid, read_grid};
use std::alloc::Global;
use std::process::Abort;
use std::test::Fail;
use table_file::Table;

/// The tuples of the table of the square, each with its label before it.
const SQUARE: [(u8, [u8; 2]); 16] = [
    (1, [0, 1]),
    (2, [2, 0]),
    (3, [2, 1]),
    (4, [1, 3]),
    (5, [0, 3]),
    (6, [1, 0]),
    (6, [2, 3]),
    (7, [2, 3]),
    (8, [3, 2]),
    (9, [0, 2]),
    (9, [3, 1]),
    (10, [3, 0]),
    (11, [3, 1]),
    (12, [1, 2]),
    (13, [0, 2]),
    (14, [1, 0]),
];

/// The tuples of the table of the triangle, each with its label before it.
const TRIANGLE: [(u8, [u8; 2]); 6] = [
    (1, [0, 1]),
    (2, [2, 0]),
    (3, [2, 1]),
    (4, [1, 2]),
    (5, [0, 2]),
    (6, [1, 0]),
];

/// The tuples of a table of the tetrahedron, each with its label before it.
const TETRAHEDRON: [(u8, [u8; 3]); 20] = [
    (1, [0, 2, 1]),
    (2, [0, 3, 4]),
    (3, [1, 4, 2]),
    (3, [1, 3, 4]),
    (4, [1, 5, 3]),
    (5, [0, 2, 5]),
    (5, [0, 5, 3]),
    (6, [0, 1, 5]),
    (6, [0, 5, 4]),
    (7, [2, 5, 4]),
    (8, [2, 4, 5]),
    (9, [0, 5, 1]),
    (9, [0, 4, 5]),
    (10, [0, 5, 2]),
    (10, [0, 3, 5]),
    (11, [1, 3, 5]),
    (12, [1, 2, 4]),
    (12, [1, 4, 3]),
    (13, [0, 4, 3]),
    (14, [0, 1, 2]),
];

/// The bytes of one file.
#[derive(Drop)]
struct OneFile<'a> {
    bytes: &'a [u8],
}

impl Shelf for OneFile<'_> {
    ghost files = { λ _. None };

    ghost rest = { λ _. None };

    ghost faults = { λ _. 0 };

    ghost sound = { λ _. ⊥ };

    fn begin(&mut self, _: &str) -> Result<(), Failed> {
        Ok(())
    }

    fn take(&mut self, buf: &mut [u8]) -> Result<usize, Failed> {
        let count = self.bytes.len().min(buf.len());
        buf[..count].copy_from_slice(&self.bytes[..count]);
        self.bytes = &self.bytes[count..];
        Ok(count)
    }

    ghost sound_tells = { λ _ none. absurd none };

    ghost rest_told = { λ _. (λ h. h, λ h. h) };
}

/// The tuples of a label, in their order.
fn entry<const D: usize>(
    alloc: Global,
    rows: &[(u8, [u8; D])],
    label: u32,
) -> Result<Vec<[u8; D]>, Fail> {
    let mut tuples = Vec::new(alloc);
    for (of, tuple) in rows {
        if u32::from(*of) == label {
            tuples.push(*tuple)?;
        }
    }
    Ok(tuples)
}

/// The two corners of each edge.
fn all_ends<C: Split<D>, const D: usize>() -> [(u8, u8); 32]
    ensures { (e : ℕ) → e < C.EDGES → slice_index_or result e (0, 0) ≡ edge_ends C.KIND D e }
{
    let mut ends = [(0, 0); 32];
    for edge in 0..C::EDGES as u8 {
        ends[edge as usize] = C::edge_ends(edge);
    }
    ends
}

/// Whether each entry has the bipolar edges of its label and no others.
fn keeps_rule<C: Split<D>, const D: usize>(table: &Table<D>) -> bool
    requires { table.now.kind ≡ C.KIND }
    ensures { IsTrue result → EachKeepsEdges C.KIND D table.now }
{
    let all = all_ends::<C, D>();
    let ends = &all[..C::EDGES];
    for label in 0..table.labels() {
        if !keeps_edges(bipolar_set(label, ends), table.tuples(label)) {
            return false;
        }
    }
    true
}

/// The table of these tuples, each with its label before it.
fn table_of<C: Split<D>, const D: usize>(
    alloc: Global,
    rows: &[(u8, [u8; D])],
) -> Result<Table<D>, Fail>
    ensures kind { IfOk result (λ table. table.kind ≡ C.KIND) }
{
    let mut entries = Vec::new(alloc);
    for label in 0..1 << C::CORNERS {
        entries.push(entry(alloc, rows, label)?)?;
    }
    match Table::from_entries(C::KIND, entries) {
        Ok(table) => Ok(table),
        Err(_) => Err("no table")?,
    }
}

/// A grid, an isovalue, and the mesh there.
#[derive(Drop)]
struct Case<'a, const D: usize> {
    sizes: &'a str,
    samples: &'a str,
    iso: u8,
    vertices: &'a [[i64; D]],
    simplices: &'a [[u32; D]],
}

/// The grid of a case.
fn grid_of<const D: usize>(alloc: Global, case: &Case<D>) -> Result<Grid, Fail>
    ensures regular { IfOk result IsRegularGrid }
    ensures axes { IfOk result (λ grid. length grid.sizes ≡ D) }
{
    let sizes = case.sizes;
    let samples = case.samples;
    let text = format!(in alloc;
        "NRRD0001\ntype: uint8\ndimension: {D}\nsizes: {sizes}\nencoding: raw\n\n{samples}"
    )?;
    let mut file = OneFile {
        bytes: text.as_bytes(),
    };
    match read_grid(alloc, &mut file) {
        Ok(grid) => if grid.dims as usize == D {
            Ok(grid)
        } else {
            Err("other axes")?
        },
        Err(_) => Err("no grid")?,
    }
}

/// Each case gives its mesh.
fn all_placed<C: Split<D>, const D: usize>(
    rt: &impl Abort,
    alloc: Global,
    rows: &[(u8, [u8; D])],
    cases: &[Case<D>],
) -> Result<(), Fail> {
    let table = table_of::<C, D>(alloc, rows)?;
    assert!(rt; keeps_rule::<C, D>(&table));
    for case in cases {
        let grid = grid_of(alloc, case)?;
        let mesh = place::<C, D>(alloc, &table, &grid, i64::from(case.iso)).map_err(|_| "memory")?;
        assert_eq!(rt; mesh.vertices.as_slice(), case.vertices);
        assert_eq!(rt; mesh.simplices.as_slice(), case.simplices);
    }
    Ok(())
}

#[test]
fn squares(rt: HostRuntime) -> Result<(), Fail> {
    let cases = [
        Case {
            sizes: "2 2",
            samples: "\n\0\0\0",
            iso: 5,
            vertices: &[[500_000, 0], [0, 500_000]],
            simplices: &[[0, 1]],
        },
        Case {
            sizes: "2 2",
            samples: "\0\n\n\0",
            iso: 5,
            vertices: &[
                [500_000, 0],
                [0, 500_000],
                [1_000_000, 500_000],
                [500_000, 1_000_000],
            ],
            simplices: &[[1, 0], [2, 3]],
        },
        Case {
            sizes: "2 2",
            samples: "\x05\0\0\0",
            iso: 5,
            vertices: &[[0, 0], [0, 0]],
            simplices: &[[0, 1]],
        },
        Case {
            sizes: "2 2",
            samples: "\0\x03\0\x03",
            iso: 1,
            vertices: &[[333_333, 0], [333_333, 1_000_000]],
            simplices: &[[1, 0]],
        },
        Case {
            sizes: "2 2",
            samples: "\t\t\t\t",
            iso: 5,
            vertices: &[],
            simplices: &[],
        },
        Case {
            sizes: "1 7",
            samples: "\0\t\0\t\0\t\0",
            iso: 5,
            vertices: &[],
            simplices: &[],
        },
    ];
    all_placed::<CubeCell<2>, 2>(&rt, rt.alloc(), &SQUARE, &cases)
}

#[test]
fn simplices(rt: HostRuntime) -> Result<(), Fail> {
    let triangles = Case {
        sizes: "2 2",
        samples: "\n\0\0\0",
        iso: 5,
        vertices: &[[500_000, 0], [0, 500_000], [500_000, 500_000]],
        simplices: &[[0, 2], [2, 1]],
    };
    all_placed::<SimplexCell<2>, 2>(&rt, rt.alloc(), &TRIANGLE, &[triangles])?;
    let tetrahedra = Case {
        sizes: "2 2 2",
        samples: "\n\0\0\0\0\0\0\0",
        iso: 5,
        vertices: &[
            [500_000, 0, 0],
            [0, 500_000, 0],
            [500_000, 500_000, 0],
            [0, 0, 500_000],
            [500_000, 0, 500_000],
            [0, 500_000, 500_000],
            [500_000, 500_000, 500_000],
        ],
        simplices: &[
            [0, 6, 2],
            [0, 4, 6],
            [1, 2, 6],
            [1, 6, 5],
            [3, 6, 4],
            [3, 5, 6],
        ],
    };
    all_placed::<SimplexCell<3>, 3>(&rt, rt.alloc(), &TETRAHEDRON, &[tetrahedra])
}
