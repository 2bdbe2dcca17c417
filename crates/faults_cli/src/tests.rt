//! Runs over tables in memory, worked by hand from the rules.

use super::*;
use cell_lattice::{Cell, CubeCell, PyramidCell, SimplexCell};
use iso_base::{MemFile, MemShelf, MemSink};
use iso_cli::{Status, TableCause, TableForm};
use std::alloc::{AllocError, Global};
use std::process::Abort;
use std::test::Fail;
use table_file::encode;
use table_make::make;
use worked_tables::{SQUARE, SQUARE2, TETRAHEDRON};

// A run over a table's file, in pieces, and a sink of which calls fail.
#[derive(Clone, Copy)]
struct Case<'a> {
    words: &'a str,
    table: [&'a [u8]; 3],
    out_fails: &'a [u64],
    out_step: usize,
    ended: Result<Verdict, Status>,
    out: &'a str,
    line: &'a str,
}

const fn accepts<'a>(table: [&'a [u8]; 3]) -> Case<'a> {
    Case {
        words: "table=a.tab",
        table,
        out_fails: &[],
        out_step: 64,
        ended: Ok(Verdict::Accepted),
        out: "accepted\n",
        line: "",
    }
}

const fn lists<'a>(table: [&'a [u8]; 3], out: &'a str) -> Case<'a> {
    Case {
        ended: Ok(Verdict::Faulty),
        out,
        ..accepts(table)
    }
}

fn refuses<'a>(words: &'a str, status: Status, line: &'a str) -> Case<'a> {
    Case {
        words,
        ended: Err(status),
        out: "",
        line,
        ..accepts([&SQUARE[..111], &[], &[]])
    }
}

fn words_of(alloc: Global, line: &str) -> Result<Vec<String>, AllocError> {
    let mut words = Vec::new(alloc);
    if !line.is_empty() {
        for word in line.split(' ') {
            words.push(String::from_str(alloc, word)?)?;
        }
    }
    Ok(words)
}

// A shelf with the one file `a.tab`.
fn shelf_of(alloc: Global, table: &[&[u8]]) -> Result<MemShelf, AllocError> {
    let mut bytes = Vec::new(alloc);
    for piece in table {
        bytes.extend_from_slice(piece)?;
    }
    let name = String::from_str(alloc, "a.tab")?;
    let mut files = Vec::new(alloc);
    files.push(MemFile { name, bytes })?;
    Ok(MemShelf::new(files, Vec::new(alloc), 1000))
}

// Runs the case, and compares the ending and what was put.
fn check(rt: &impl Abort, alloc: Global, number: usize, case: &Case) -> Result<(), Fail> {
    let words = words_of(alloc, case.words)?;
    let mut shelf = shelf_of(alloc, &case.table)?;
    let fails = Vec::from_slice(alloc, case.out_fails)?;
    let mut out = MemSink::new(alloc, 2000, fails, case.out_step.max(1))?;
    let mut err = MemSink::new(alloc, 1000, Vec::new(alloc), 10)?;
    let ended = run(alloc, words.as_slice(), &mut shelf, &mut out, &mut err);
    assert!(rt; ended == case.ended, "case {number}");
    assert_eq!(rt; out.bytes(), case.out.as_bytes(), "case {number}");
    assert_eq!(rt; err.bytes(), case.line.as_bytes(), "case {number}");
    Ok(())
}

const EMPTY_LABEL: &str = "label 1 rule 1
label 2 rule 6 facet 1 against label 1 facet 0
label 3 rule 6 facet 1 against label 1 facet 0
label 4 rule 6 facet 3 against label 1 facet 2
label 5 rule 6 facet 3 against label 1 facet 2
label 6 rule 6 facet 1 against label 1 facet 0
label 7 rule 6 facet 1 against label 1 facet 0
faults 7
";

const TURNED_LABEL: &str = "label 1 rule 4
label 2 rule 6 facet 1 against label 1 facet 0
label 3 rule 6 facet 1 against label 1 facet 0
label 4 rule 6 facet 3 against label 1 facet 2
label 5 rule 6 facet 3 against label 1 facet 2
label 6 rule 6 facet 1 against label 1 facet 0
label 7 rule 6 facet 1 against label 1 facet 0
faults 7
";

const ALL_EMPTY: &str = "label 1 rule 1
label 2 rule 1
label 3 rule 1
label 4 rule 1
label 5 rule 1
label 6 rule 1
label 7 rule 1
label 8 rule 1
label 9 rule 1
label 10 rule 1
label 11 rule 1
label 12 rule 1
label 13 rule 1
label 14 rule 1
faults 14
";

const ADDED_TUPLE: &str = "label 1 rule 6 facet 3 against label 3 facet 0
label 3 rule 3
label 6 rule 6 facet 0 against label 3 facet 3
label 7 rule 6 facet 0 against label 3 facet 3
label 9 rule 6 facet 3 against label 3 facet 0
faults 5
";

// Tables of squares and of tetrahedra, whole and spoiled.
fn listed() -> [Case<'static>; 6] {
    [
        accepts([&SQUARE, &[], &[]]),
        accepts([&SQUARE2, &[], &[]]),
        lists([&SQUARE[..20], &[0; 4], &SQUARE[26..]], EMPTY_LABEL),
        lists([&SQUARE[..24], &[1, 0], &SQUARE[26..]], TURNED_LABEL),
        lists([&SQUARE[..16], &[0; 64], &[]], ALL_EMPTY),
        lists(
            [
                &TETRAHEDRON[..34],
                &[0, 0, 0, 3, 1, 4, 2, 1, 3, 4, 1, 3, 4],
                &TETRAHEDRON[44..],
            ],
            ADDED_TUPLE,
        ),
    ]
}

// Wrong words, files that are refused, and an output that fails in the second line.
fn refused() -> [Case<'static>; 8] {
    let short = Status::TableForm(TableForm::Fault {
        place: 111,
        cause: TableCause::Short,
    });
    [
        refuses("", Status::Usage(1), "usage: word 1\n"),
        refuses("check table=a.tab", Status::Usage(1), "usage: word 1\n"),
        refuses("table=", Status::Usage(1), "usage: word 1\n"),
        refuses("mesh=a.tab", Status::Usage(1), "usage: word 1\n"),
        refuses(
            "table=a.tab table=a.tab",
            Status::Usage(2),
            "usage: word 2\n",
        ),
        refuses("table=b.tab", Status::ShelfFault(1), "shelf fault: 1\n"),
        refuses("table=a.tab", short, "table form: short 111\n"),
        Case {
            out_step: 16,
            out_fails: &[1],
            ended: Err(Status::WriteFault(1)),
            line: "write fault: 1\n",
            ..lists([&SQUARE[..24], &[1, 0], &SQUARE[26..]], "label 1 rule 4\nl")
        },
    ]
}

#[test]
fn faults_are_listed_or_refused(rt: HostRuntime) -> Result<(), Fail> {
    for (number, case) in listed().iter().enumerate() {
        check(&rt, rt.alloc(), number, case)?;
    }
    for (number, case) in refused().iter().enumerate() {
        check(&rt, rt.alloc(), number, case)?;
    }
    Ok(())
}

// The bytes of the table of the construction.
fn made<C: Cell<D>, const D: usize>(alloc: Global) -> Result<Vec<u8>, Fail> {
    let table = make::<C, D>(alloc)?;
    Ok(encode(alloc, &table)?)
}

#[test]
fn made_tables_are_accepted(rt: HostRuntime) -> Result<(), Fail> {
    let alloc = rt.alloc();
    let tables = [
        made::<CubeCell<2>, 2>(alloc)?,
        made::<SimplexCell<2>, 2>(alloc)?,
        made::<CubeCell<3>, 3>(alloc)?,
        made::<SimplexCell<3>, 3>(alloc)?,
        made::<PyramidCell, 3>(alloc)?,
        made::<SimplexCell<4>, 4>(alloc)?,
    ];
    for (number, table) in tables.iter().enumerate() {
        check(&rt, alloc, number, &accepts([table.as_slice(), &[], &[]]))?;
    }
    Ok(())
}

#[test]
fn the_made_table_of_hypercubes_is_accepted(rt: HostRuntime) -> Result<(), Fail> {
    let table = made::<CubeCell<4>, 4>(rt.alloc())?;
    check(&rt, rt.alloc(), 0, &accepts([table.as_slice(), &[], &[]]))
}

const PARTED_CORNERS: &str = "label 6 rule 6 facet 4 against label 96 facet 5
label 96 rule 6 facet 5 against label 6 facet 4
label 97 rule 6 facet 5 against label 6 facet 4
label 98 rule 6 facet 5 against label 6 facet 4
label 99 rule 6 facet 5 against label 6 facet 4
label 100 rule 6 facet 5 against label 6 facet 4
label 101 rule 6 facet 5 against label 6 facet 4
label 102 rule 6 facet 5 against label 6 facet 4
label 103 rule 6 facet 5 against label 6 facet 4
label 104 rule 6 facet 5 against label 6 facet 4
label 105 rule 6 facet 5 against label 6 facet 4
label 106 rule 6 facet 5 against label 6 facet 4
label 107 rule 6 facet 5 against label 6 facet 4
label 108 rule 6 facet 5 against label 6 facet 4
label 109 rule 6 facet 5 against label 6 facet 4
label 110 rule 6 facet 5 against label 6 facet 4
label 111 rule 6 facet 5 against label 6 facet 4
faults 17
";

// Label 6 of the cube parts its two positive corners, which all others join: below it are the labels that have the same
// signs in their upper facet.
#[test]
fn corners_that_one_label_parts(rt: HostRuntime) -> Result<(), Fail> {
    let alloc = rt.alloc();
    let table = made::<CubeCell<3>, 3>(alloc)?;
    let (Some(before), Some(after)) = (table.get(..61), table.get(77..)) else {
        return Err("no table of cubes".into());
    };
    let parted = [0, 0, 0, 2, 0, 2, 5, 1, 6, 3];
    check(
        &rt,
        alloc,
        0,
        &lists([before, &parted, after], PARTED_CORNERS),
    )
}
