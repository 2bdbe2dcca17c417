//! Generated tables: their bytes, the check of them, and meshes by them.

use super::*;

const CUBE: &str = "generate kind=cube dim=3";

const HYPERCUBE: &str = "generate kind=cube dim=4";

const PYRAMID: &str = "generate kind=pyramid dim=3";

// A run over a shelf that is not to be touched.
#[derive(Clone, Copy)]
struct Making<'a> {
    words: &'a str,
    room: usize,
    status: Status,
    out: &'a [u8],
    line: &'a str,
}

const fn makes<'a>(words: &'a str, out: &'a [u8]) -> Making<'a> {
    Making {
        words,
        room: 1000,
        status: Status::Done,
        out,
        line: "",
    }
}

const fn refuses_to_make<'a>(words: &'a str, place: u32, line: &'a str) -> Making<'a> {
    Making {
        status: Status::Usage(place),
        line,
        ..makes(words, &[])
    }
}

// Runs the case over a shelf whose first call fails, and sees that this call is still to come.
fn check_making(
    rt: &(impl Abort + Threads + Sync),
    alloc: Global,
    number: usize,
    case: &Making,
) -> Result<(), Fail> {
    let words = words_of(alloc, case.words)?;
    let mut files = Vec::new(alloc);
    files.push(file(alloc, "table.tab", &[&SQUARE])?)?;
    let mut shelf = MemShelf::new(files, Vec::from_slice(alloc, &[0])?, 10);
    let mut out = MemSink::new(alloc, case.room, Vec::new(alloc), 16)?;
    let mut err = MemSink::new(alloc, 1000, Vec::new(alloc), 10)?;
    let status = run_freely(rt, alloc, words.as_slice(), &mut shelf, &mut out, &mut err);
    assert_eq!(rt; status, case.status, "case {number}");
    assert_eq!(rt; out.bytes(), case.out, "case {number}");
    assert_eq!(rt; err.bytes(), case.line.as_bytes(), "case {number}");
    assert!(rt; shelf.begin("table.tab").is_err(), "case {number}");
    assert!(rt; shelf.begin("table.tab").is_ok(), "case {number}");
    Ok(())
}

#[test]
fn tables_are_made_without_files(rt: HostRuntime) -> Result<(), Fail> {
    let cases = [
        makes("generate kind=cube dim=2", &SQUARE),
        makes("generate dim=2 kind=cube", &SQUARE),
        makes("generate kind=simplex dim=2", &TRIANGLE),
        makes("generate kind=simplex dim=3", &TETRAHEDRON),
        // no room for all bytes
        Making {
            room: 20,
            status: Status::WriteFault(1),
            line: "write fault: 1\n",
            ..makes("generate kind=cube dim=2", &SQUARE[..20])
        },
        refuses_to_make("generate kind=pyramid dim=2", 3, "usage: word 3\n"),
        refuses_to_make("generate dim=2 kind=pyramid", 3, "usage: word 3\n"),
        refuses_to_make("generate kind=cube", 3, "usage: word 3\n"),
    ];
    for (number, case) in cases.iter().enumerate() {
        check_making(&rt, rt.alloc(), number, case)?;
    }
    Ok(())
}

// The bytes of the table that the words ask for.
fn made(rt: &(impl Abort + Threads + Sync), alloc: Global, line: &str) -> Result<Vec<u8>, Fail> {
    let words = words_of(alloc, line)?;
    let mut shelf = MemShelf::new(Vec::new(alloc), Vec::new(alloc), 1);
    let mut out = MemSink::new(alloc, 4_000_000, Vec::new(alloc), 65_536)?;
    let mut err = MemSink::new(alloc, 0, Vec::new(alloc), 1)?;
    let status = run_freely(rt, alloc, words.as_slice(), &mut shelf, &mut out, &mut err);
    assert_eq!(rt; status, Status::Done, "{line}");
    Ok(Vec::from_slice(alloc, out.bytes())?)
}

#[test]
fn made_tables_are_accepted(rt: HostRuntime) -> Result<(), Fail> {
    let lines = [
        "generate kind=cube dim=2",
        "generate kind=cube dim=3",
        HYPERCUBE,
        "generate kind=simplex dim=2",
        "generate kind=simplex dim=3",
        "generate kind=simplex dim=4",
        "generate kind=pyramid dim=3",
    ];
    for (number, line) in lines.into_iter().enumerate() {
        let table = made(&rt, rt.alloc(), line)?;
        check(
            &rt,
            rt.alloc(),
            number,
            &accepts([table.as_slice(), &[], &[]]),
        )?;
    }
    Ok(())
}

// Four points of the entry lie in one plane, and are parted along their other diagonal, which lies in no facet.
#[test]
fn the_other_diagonal_is_accepted(rt: HostRuntime) -> Result<(), Fail> {
    let cube = made(&rt, rt.alloc(), CUBE)?;
    let (before, _, behind) = parted(cube.as_slice(), 3, 6);
    let entry = [0, 0, 0, 4, 0, 1, 5, 1, 6, 5, 2, 6, 3, 2, 5, 6];
    check(&rt, rt.alloc(), 0, &accepts([before, &entry, behind]))
}

// The entry that begins these bytes, which is the count of its tuples and the tuples, and the bytes behind it.
fn split_entry(bytes: &[u8], dims: u8) -> (&[u8], &[u8]) {
    let length = match bytes {
        [first, second, third, fourth, ..] => {
            let count = u32::from_be_bytes([*first, *second, *third, *fourth]);
            4 + count as usize * dims as usize
        }
        _ => 0,
    };
    bytes.split_at(length.min(bytes.len()))
}

// The bytes of a table before the entry of a label, the entry, and the bytes behind it.
fn parted(table: &[u8], dims: u8, label: u32) -> (&[u8], &[u8], &[u8]) {
    let mut rest = &table[table.len().min(16)..];
    for _ in 0..label {
        rest = split_entry(rest, dims).1;
    }
    let (entry, behind) = split_entry(rest, dims);
    let before = table.len().saturating_sub(rest.len());
    (&table[..before], entry, behind)
}

#[test]
fn made_tables_have_these_entries(rt: HostRuntime) -> Result<(), Fail> {
    let cases = [
        // corners across a side of the cube
        (
            CUBE,
            3,
            6,
            [0, 0, 0, 4, 0, 1, 6, 0, 6, 5, 2, 6, 3, 2, 5, 6].as_slice(),
        ),
        // opposite corners
        (
            CUBE,
            3,
            129,
            &[
                0, 0, 0, 6, 0, 7, 1, 0, 4, 10, 0, 10, 7, 1, 11, 4, 1, 7, 11, 4, 11, 10,
            ],
        ),
        (PYRAMID, 3, 1, &[0, 0, 0, 1, 0, 4, 1]),
        (PYRAMID, 3, 2, &[0, 0, 0, 1, 0, 2, 5]),
    ];
    for (words, dims, label, entry) in cases {
        let table = made(&rt, rt.alloc(), words)?;
        assert_eq!(rt;
            parted(table.as_slice(), dims, label).1,
            entry,
            "{words}, label {label}"
        );
    }
    Ok(())
}

// An entry with one more tuple at its end.
fn with_tuple(alloc: Global, entry: &[u8], tuple: [u8; 3]) -> Result<Vec<u8>, AllocError> {
    let mut longer = Vec::new(alloc);
    if let [first, second, third, count, tuples @ ..] = entry {
        longer.extend_from_slice(&[*first, *second, *third, count.wrapping_add(1)])?;
        longer.extend_from_slice(tuples)?;
    }
    longer.extend_from_slice(&tuple)?;
    Ok(longer)
}

#[test]
fn made_tables_with_another_entry_are_refused(rt: HostRuntime) -> Result<(), Fail> {
    let alloc = rt.alloc();
    let cube = made(&rt, alloc, CUBE)?;
    let pyramid = made(&rt, alloc, PYRAMID)?;
    let longer = with_tuple(alloc, parted(pyramid.as_slice(), 3, 6).1, [0, 1, 2])?;
    let cases = [
        (
            cube.as_slice(),
            22,
            [0, 0, 0, 4, 0, 2, 5, 1, 6, 3, 4, 8, 9, 0, 1, 4].as_slice(),
            5,
            "table refused: label 22 rule 5\n",
        ),
        (
            cube.as_slice(),
            6,
            &[0, 0, 0, 2, 0, 2, 5, 1, 6, 3],
            6,
            "table refused: label 6 rule 6\n",
        ),
        // one more tuple, which lies in a facet
        (
            pyramid.as_slice(),
            6,
            longer.as_slice(),
            2,
            "table refused: label 6 rule 2\n",
        ),
    ];
    for (number, (table, label, entry, rule, line)) in cases.into_iter().enumerate() {
        let (before, _, behind) = parted(table, 3, label);
        let case = Case {
            out: "",
            status: Status::TableRefused { label, rule },
            line,
            ..accepts([before, entry, behind])
        };
        check(&rt, alloc, number, &case)?;
    }
    Ok(())
}

const SPACE: &str = "NRRD0001\ntype: uint8\ndimension: 3\nsizes: 2 2 2\nencoding: raw\n\n";

// The header of a scanner's volume, with samples of two bytes.
const VOLUME: &str = "NRRD0001
type: short
dimension: 3
sizes: 256 256 124
endian: little
encoding: raw

";

// The mesh round the first corner of a cube.
const CORNER: &str = "OFF
3 1 0
0.500000 0.000000 0.000000
0.000000 0.500000 0.000000
0.000000 0.000000 0.500000
3 0 2 1
";

// The mesh round two opposite corners of a cube, which it joins.
pub(super) const OPPOSITE: &str = "OFF
6 6 0
0.500000 0.000000 0.000000
0.000000 0.500000 0.000000
0.000000 0.000000 0.500000
1.000000 1.000000 0.500000
1.000000 0.500000 1.000000
0.500000 1.000000 1.000000
3 0 3 1
3 0 2 4
3 0 4 3
3 1 5 2
3 1 3 5
3 2 5 4
";

// The mesh of pyramids round the first corner of a cube, whose centre is negative.
pub(super) const BELOW_CENTRE: &str = "OFF
4 3 0
0.375000 0.000000 0.000000
0.000000 0.375000 0.000000
0.214285 0.214285 0.214285
0.000000 0.000000 0.375000
3 1 2 3
3 0 3 2
3 0 2 1
";

// The same round the first corner of the upper side: the centre is the low end of its edge to that corner.
const ABOVE_CENTRE: &str = "OFF
4 3 0
0.000000 0.000000 0.625000
0.214285 0.214285 0.785714
0.375000 0.000000 1.000000
0.000000 0.375000 1.000000
3 0 1 3
3 0 2 1
3 2 3 1
";

const HYPERSPACE: &str = "NRRD0001\ntype: uint8\ndimension: 4\nsizes: 2 2 2 2\nencoding: raw\n\n";

// The mesh round the first corner of a hypercube.
pub(super) const HYPERCORNER: &str = "nOFF
4
4 1 0
0.500000 0.000000 0.000000 0.000000
0.000000 0.500000 0.000000 0.000000
0.000000 0.000000 0.500000 0.000000
0.000000 0.000000 0.000000 0.500000
4 0 1 2 3
";

// The mesh round the first corner of a hypercube that is split into 24 simplices: a vertex on each edge of the corner, by
// the set of axes in which it advances, and a tetrahedron for each order of the axes, turned where the order is odd.
pub(super) const PENTACHORA: &str = "nOFF
4
15 24 0
0.500000 0.000000 0.000000 0.000000
0.000000 0.500000 0.000000 0.000000
0.500000 0.500000 0.000000 0.000000
0.000000 0.000000 0.500000 0.000000
0.500000 0.000000 0.500000 0.000000
0.000000 0.500000 0.500000 0.000000
0.500000 0.500000 0.500000 0.000000
0.000000 0.000000 0.000000 0.500000
0.500000 0.000000 0.000000 0.500000
0.000000 0.500000 0.000000 0.500000
0.500000 0.500000 0.000000 0.500000
0.000000 0.000000 0.500000 0.500000
0.500000 0.000000 0.500000 0.500000
0.000000 0.500000 0.500000 0.500000
0.500000 0.500000 0.500000 0.500000
4 0 2 6 14
4 0 2 14 10
4 0 4 14 6
4 0 4 12 14
4 0 8 10 14
4 0 8 14 12
4 1 2 14 6
4 1 2 10 14
4 1 5 6 14
4 1 5 14 13
4 1 9 14 10
4 1 9 13 14
4 3 4 6 14
4 3 4 14 12
4 3 5 14 6
4 3 5 13 14
4 3 11 12 14
4 3 11 14 13
4 7 8 14 10
4 7 8 12 14
4 7 9 10 14
4 7 9 14 13
4 7 11 14 12
4 7 11 13 14
";

#[test]
fn made_tables_place_meshes(rt: HostRuntime) -> Result<(), Fail> {
    let alloc = rt.alloc();
    let cube = made(&rt, alloc, CUBE)?;
    let pyramid = made(&rt, alloc, PYRAMID)?;
    let hypercube = made(&rt, alloc, HYPERCUBE)?;
    let first = [10, 0, 0, 0, 0, 0, 0, 0];
    let first_of_all = [10, 0, 0, 0, 0, 0, 0, 0, 0, 0, 0, 0, 0, 0, 0, 0];
    let opposite = [10, 0, 0, 0, 0, 0, 0, 10];
    let lower = [8, 0, 0, 0, 0, 0, 0, 0];
    let upper = [0, 0, 0, 0, 8, 0, 0, 0];
    let cases = [
        (cube.as_slice(), SPACE, first.as_slice(), CORNER),
        (cube.as_slice(), SCANNED, first.as_slice(), CORNER),
        (cube.as_slice(), SPACE, opposite.as_slice(), OPPOSITE),
        (pyramid.as_slice(), SPACE, lower.as_slice(), BELOW_CENTRE),
        (pyramid.as_slice(), SPACE, upper.as_slice(), ABOVE_CENTRE),
        (
            hypercube.as_slice(),
            HYPERSPACE,
            first_of_all.as_slice(),
            HYPERCORNER,
        ),
    ];
    for (number, (table, header, samples, mesh)) in cases.into_iter().enumerate() {
        let case = Case {
            table: [table, &[], &[]],
            ..extracts(header, samples, mesh)
        };
        check(&rt, alloc, number, &case)?;
    }
    Ok(())
}

#[test]
fn simplices_of_four_dimensions_place_a_mesh(rt: HostRuntime) -> Result<(), Fail> {
    let alloc = rt.alloc();
    let table = made(&rt, alloc, "generate kind=simplex dim=4")?;
    let samples = [10, 0, 0, 0, 0, 0, 0, 0, 0, 0, 0, 0, 0, 0, 0, 0];
    let case = extracts(HYPERSPACE, &samples, PENTACHORA);
    check(&rt, alloc, 0, &by_table(table.as_slice(), case))
}

// The case with another table.
const fn by_table<'a>(table: &'a [u8], case: Case<'a>) -> Case<'a> {
    Case {
        table: [table, &[], &[]],
        ..case
    }
}

#[test]
fn a_volume_of_zeros_has_an_empty_mesh(rt: HostRuntime) -> Result<(), Fail> {
    let alloc = rt.alloc();
    let cube = made(&rt, alloc, CUBE)?;
    let zeros = vec![in alloc; 0u8; 16_252_928]?;
    let case = Case {
        words: "extract table=table.tab grid=grid.nrrd iso=1",
        shelf_step: 65536,
        ..extracts(VOLUME, zeros.as_slice(), "OFF\n0 0 0\n")
    };
    check(&rt, alloc, 0, &by_table(cube.as_slice(), case))
}
