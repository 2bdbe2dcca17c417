ghost use Rattle.std.specs.Prelude.{◌≡◌, IfOk};

use iso_base::{MemFile, MemShelf, MemSink, OpenGate, Shelf, Sink};
use iso_cli::{GridCause, OffCause, Status, TableCause, TableForm, run};
use std::alloc::{AllocError, Global};
use std::process::Abort;
use std::test::Fail;
use std::thread::Threads;
use worked_tables::{SQUARE, SQUARE2, TETRAHEDRON, TRIANGLE};

mod audited;
mod converted;
mod cut;
mod decided;
mod demonstrated;
mod generated;
mod parts;
mod spectra;
mod watched;

use watched::{WatchedShelf, WatchedSink};

const HEADER: &str = "NRRD0001\ntype: uint8\ndimension: 2\nsizes: 2 2\nencoding: raw\n\n";

// A header as a scanner's tools write it: comments, a pair, fields that are passed over, and CR LF.
const SCANNED: &str = "NRRD0004\r
# Complete NRRD file format specification at:\r
# http://teem.sourceforge.net/nrrd/format.html\r
content: sample\r
type: unsigned char\r
dimension: 3\r
space: left-posterior-superior\r
sizes: 2 2 2\r
space directions: (1,0,0) (0,1,0) (0,0,1)\r
kinds: domain domain domain\r
endian: little\r
encoding: raw\r
space origin: (0,0,0)\r
operator:=first trial\r
\r
";

// The samples of a square with one positive corner.
const SAMPLES: [u8; 4] = [10, 0, 0, 0];

const WORDS: &str = "extract table=table.tab grid=grid.nrrd iso=5";

const FIRST: &str = "nOFF\n2\n2 1 0\n0.500000 0.000000\n0.000000 0.500000\n2 0 1\n";

// The mesh around one sample of a cube that is split into six simplices.
const TETRAHEDRA: &str = "OFF
7 6 0
0.500000 0.000000 0.000000
0.000000 0.500000 0.000000
0.500000 0.500000 0.000000
0.000000 0.000000 0.500000
0.500000 0.000000 0.500000
0.000000 0.500000 0.500000
0.500000 0.500000 0.500000
3 0 6 2
3 0 4 6
3 1 2 6
3 1 6 5
3 3 6 4
3 3 5 6
";

// A run over a table file, in pieces, and a grid file, with calls that fail.
#[derive(Clone, Copy)]
struct Case<'a> {
    words: &'a str,
    table: [&'a [u8]; 3],
    header: &'a str,
    samples: &'a [u8],
    shelf_fails: &'a [u64],
    shelf_step: usize,
    out_fails: &'a [u64],
    out_step: usize,
    status: Status,
    out: &'a str,
    line: &'a str,
}

const fn extracts<'a>(header: &'a str, samples: &'a [u8], out: &'a str) -> Case<'a> {
    Case {
        words: WORDS,
        table: [&SQUARE, &[], &[]],
        header,
        samples,
        shelf_fails: &[],
        shelf_step: 1000,
        out_fails: &[],
        out_step: 64,
        status: Status::Done,
        out,
        line: "",
    }
}

const fn refuses<'a>(
    words: &'a str,
    header: &'a str,
    samples: &'a [u8],
    status: Status,
    line: &'a str,
) -> Case<'a> {
    Case {
        words,
        table: [&SQUARE, &[], &[]],
        header,
        samples,
        shelf_fails: &[],
        shelf_step: 1000,
        out_fails: &[],
        out_step: 64,
        status,
        out: "",
        line,
    }
}

// A run over the threads that there are, and a gate that is open.
fn run_freely<S: Shelf, O: Sink>(
    rt: &(impl Threads + Sync),
    alloc: Global,
    words: &[String],
    shelf: &mut S,
    out: &mut O,
    err: &mut MemSink,
) -> Status {
    run(rt, alloc, words, shelf, out, err, &OpenGate)
}

fn words_of(alloc: Global, line: &str) -> Result<Vec<String>, AllocError> {
    let mut words = Vec::new(alloc);
    if !line.is_empty() {
        for word in line.split(' ') {
            words.push(String::from_str(alloc, word)?)?;
        }
    }
    Ok(words)
}

fn file(alloc: Global, name: &str, pieces: &[&[u8]]) -> Result<MemFile, AllocError>
    ensures { IfOk result (λ file. file.0 ≡ name.now) }
{
    let mut bytes = Vec::new(alloc);
    for piece in pieces {
        bytes.extend_from_slice(piece)?;
    }
    Ok(MemFile {
        name: String::from_str(alloc, name)?,
        bytes,
    })
}

fn shelf_of(alloc: Global, case: &Case) -> Result<WatchedShelf, AllocError> {
    failing_shelf(alloc, case, case.shelf_step, case.shelf_fails)
}

// The shelf of a case, of which a call gives so many bytes at most, and these calls are to fail.
fn failing_shelf(
    alloc: Global,
    case: &Case,
    step: usize,
    fails: &[u64],
) -> Result<WatchedShelf, AllocError> {
    let mut files = Vec::new(alloc);
    files.push(file(alloc, "table.tab", &case.table)?)?;
    files.push(file(alloc, "grid.nrrd", &[case.header.as_bytes(), case.samples])?)?;
    let fails = Vec::from_slice(alloc, fails)?;
    let shelf = MemShelf::new(files, fails, step.max(1));
    Ok(WatchedShelf::new(shelf))
}

// Runs the case, and compares the status and what was put.
fn check(
    rt: &(impl Abort + Threads + Sync),
    alloc: Global,
    number: usize,
    case: &Case,
) -> Result<(), Fail> {
    let mut shelf = shelf_of(alloc, case)?;
    check_over(rt, alloc, number, case, &mut shelf, case.status, case.line)
}

// The same over a shelf, with a status and a line of its own.
fn check_over(
    rt: &(impl Abort + Threads + Sync),
    alloc: Global,
    number: usize,
    case: &Case,
    shelf: &mut WatchedShelf,
    status: Status,
    line: &str,
) -> Result<(), Fail> {
    let words = words_of(alloc, case.words)?;
    let fails = Vec::from_slice(alloc, case.out_fails)?;
    let mut out = WatchedSink::new(MemSink::new(alloc, 2000, fails, case.out_step.max(1))?);
    let mut err = MemSink::new(alloc, 1000, Vec::new(alloc), 10)?;
    let answer = run_freely(rt, alloc, words.as_slice(), shelf, &mut out, &mut err);
    assert_eq!(rt; answer, status, "case {number}");
    assert_eq!(rt; out.bytes(), case.out.as_bytes(), "case {number}");
    assert_eq!(rt; err.bytes(), line.as_bytes(), "case {number}");
    assert!(rt; shelf.is_called_rightly(), "case {number}");
    assert!(rt; out.is_called_rightly(), "case {number}");
    Ok(())
}

// Checks each of the cases.
fn check_all(
    rt: &(impl Abort + Threads + Sync),
    alloc: Global,
    cases: &[Case],
) -> Result<(), Fail> {
    for (number, case) in cases.iter().enumerate() {
        check(rt, alloc, number, case)?;
    }
    Ok(())
}

// Grids, and the meshes that are put of them.
fn square_meshes() -> [Case<'static>; 6] {
    [
        extracts(HEADER, &[10, 0, 0, 0], FIRST),
        extracts(
            "NRRD0001\ntype: int8\ndimension: 2\nsizes: 2 2\nencoding: raw\n\n",
            &[10, 0, 0, 0],
            FIRST,
        ),
        // the ambiguous square: its positive corners are joined
        extracts(
            HEADER,
            &[0, 10, 10, 0],
            "nOFF\n2\n4 2 0\n0.500000 0.000000\n0.000000 0.500000\n1.000000 0.500000\n0.500000 1.000000\n2 1 0\n2 2 3\n",
        ),
        // a sample equal to the isovalue is positive
        extracts(
            HEADER,
            &[5, 0, 0, 0],
            "nOFF\n2\n2 1 0\n0.000000 0.000000\n0.000000 0.000000\n2 0 1\n",
        ),
        extracts(HEADER, &[9, 9, 9, 9], "nOFF\n2\n0 0 0\n"),
        // one sample along an axis: no squares, and no triangles
        extracts(
            "NRRD0001\ntype: uint8\ndimension: 2\nsizes: 1 7\nencoding: raw\n\n",
            &[0, 9, 0, 9, 0, 9, 0],
            "nOFF\n2\n0 0 0\n",
        ),
    ]
}

// The same by tables of simplices, at other isovalues, and of shorts.
fn other_meshes() -> [Case<'static>; 5] {
    [
        Case {
            table: [&TRIANGLE, &[], &[]],
            ..extracts(
                "NRRD0001\ntype: uint8\ndimension: 2\nsizes: 1 7\nencoding: raw\n\n",
                &[0, 9, 0, 9, 0, 9, 0],
                "nOFF\n2\n0 0 0\n",
            )
        },
        Case {
            words: "extract table=table.tab grid=grid.nrrd iso=1",
            ..extracts(
                HEADER,
                &[0, 3, 0, 3],
                "nOFF\n2\n2 1 0\n0.333333 0.000000\n0.333333 1.000000\n2 1 0\n",
            )
        },
        // the table of the simplex in each of both dimensions
        Case {
            table: [&TRIANGLE, &[], &[]],
            ..extracts(
                HEADER,
                &[10, 0, 0, 0],
                "nOFF\n2\n3 2 0\n0.500000 0.000000\n0.000000 0.500000\n0.500000 0.500000\n2 0 2\n2 2 1\n",
            )
        },
        Case {
            table: [&TETRAHEDRON, &[], &[]],
            ..extracts(SCANNED, &[10, 0, 0, 0, 0, 0, 0, 0], TETRAHEDRA)
        },
        // shorts with the high byte first
        Case {
            words: "extract table=table.tab iso=-3 grid=grid.nrrd",
            ..extracts(
                "NRRD0005\ntype: short\ndimension: 2\nsizes: 2 2\nendian: big\nencoding: raw\n\n",
                &[0xff, 0xfb, 0, 0, 0xff, 0xfb, 0, 0],
                "nOFF\n2\n2 1 0\n0.400000 0.000000\n0.400000 1.000000\n2 1 0\n",
            )
        },
    ]
}

#[test]
fn meshes_are_placed(rt: HostRuntime) -> Result<(), Fail> {
    check_all(&rt, rt.alloc(), &square_meshes())?;
    check_all(&rt, rt.alloc(), &other_meshes())
}

// Words that are refused, or that name no right table.
fn refused_words() -> [Case<'static>; 6] {
    [
        refuses("", HEADER, &SAMPLES, Status::Usage(1), "usage: word 1\n"),
        refuses(
            "extract table=a grid=b iso=05",
            HEADER,
            &SAMPLES,
            Status::Usage(4),
            "usage: word 4\n",
        ),
        refuses(
            "extract table=a grid=b",
            HEADER,
            &SAMPLES,
            Status::Usage(4),
            "usage: word 4\n",
        ),
        refuses(
            "extract table=a grid=b iso=1099511627777",
            HEADER,
            &SAMPLES,
            Status::Usage(4),
            "usage: word 4\n",
        ),
        refuses(
            "extract table=table.tab grid=b iso=5",
            HEADER,
            &SAMPLES,
            Status::ShelfFault(1),
            "shelf fault: 1\n",
        ),
        refuses(
            "extract table=grid.nrrd grid=b iso=5",
            HEADER,
            &SAMPLES,
            Status::TableForm(TableForm::Fault {
                place: 0,
                cause: TableCause::Magic,
            }),
            "table form: magic 0\n",
        ),
    ]
}

// Files that are refused.
fn refused_files() -> [Case<'static>; 5] {
    [
        refuses(
            WORDS,
            "NRRD0001\ntype: uint8\ndimension: 2\nsizes: 2 2\nencoding: gzip\n\n",
            &SAMPLES,
            Status::GridForm(GridCause::Encoding(5)),
            "grid form: encoding 5\n",
        ),
        refuses(
            WORDS,
            HEADER,
            &[10, 0, 0],
            Status::GridForm(GridCause::DataShort(3)),
            "grid form: short 3\n",
        ),
        refuses(
            WORDS,
            HEADER,
            &[10, 0, 0, 0, 0],
            Status::GridForm(GridCause::Trailing),
            "grid form: trailing\n",
        ),
        refuses(
            WORDS,
            SCANNED,
            &[10, 0, 0, 0, 0, 0, 0, 0],
            Status::Unfit { table: 2, grid: 3 },
            "unfit: table 2 grid 3\n",
        ),
        Case {
            table: [&TETRAHEDRON, &[], &[]],
            ..refuses(
                WORDS,
                HEADER,
                &SAMPLES,
                Status::Unfit { table: 3, grid: 2 },
                "unfit: table 3 grid 2\n",
            )
        },
    ]
}

// Refusals by what a table or a grid says, and the one output that can't be written.
fn refused_contents() -> [Case<'static>; 3] {
    [
        // a table that is not accepted is refused whatever the grid
        Case {
            table: [&SQUARE[..24], &[1, 0], &SQUARE[26..]],
            ..refuses(
                WORDS,
                "",
                &[],
                Status::TableRefused { label: 1, rule: 4 },
                "table refused: label 1 rule 4\n",
            )
        },
        refuses(
            WORDS,
            "NRRD0001\ntype: uint8\ndimension: 2\nsizes: 16384 16384\nencoding: raw\n\n",
            &[],
            Status::GridLarge(268435456),
            "grid large: 268435456\n",
        ),
        Case {
            out_step: 1,
            out_fails: &[1],
            out: "n",
            ..refuses(
                WORDS,
                HEADER,
                &SAMPLES,
                Status::WriteFault(1),
                "write fault: 1\n",
            )
        },
    ]
}

#[test]
fn refusals_put_their_line(rt: HostRuntime) -> Result<(), Fail> {
    check_all(&rt, rt.alloc(), &refused_words())?;
    check_all(&rt, rt.alloc(), &refused_files())?;
    check_all(&rt, rt.alloc(), &refused_contents())
}

// The calls of the shelf: to begin each file, and to take its bytes, of which the header's come one at a time, up to
// its end.
#[test]
fn each_call_of_the_shelf_may_fail(rt: HostRuntime) -> Result<(), Fail> {
    for (step, calls) in [
        (1, 1 + 112 + 1 + 1 + 60 + 4 + 1),
        (1000, 1 + 1 + 1 + 1 + 60 + 1 + 1),
    ] {
        for number in 0..calls {
            let case = Case {
                shelf_fails: &[number],
                shelf_step: step,
                ..refuses(
                    WORDS,
                    HEADER,
                    &[10, 0, 0, 0],
                    Status::ShelfFault(1),
                    "shelf fault: 1\n",
                )
            };
            check(&rt, rt.alloc(), number as usize, &case)?;
        }
        let case = Case {
            shelf_fails: &[calls],
            shelf_step: step,
            ..extracts(HEADER, &[10, 0, 0, 0], FIRST)
        };
        check(&rt, rt.alloc(), calls as usize, &case)?;
    }
    Ok(())
}

// Over a standard error of which each call fails, the status and the output are as without.
#[test]
fn a_failing_error_stream_changes_nothing(rt: HostRuntime) -> Result<(), Fail> {
    let alloc = rt.alloc();
    let gzip = "NRRD0001\ntype: uint8\ndimension: 2\nsizes: 2 2\nencoding: gzip\n\n";
    let cases = [
        extracts(HEADER, &[10, 0, 0, 0], FIRST),
        refuses(
            WORDS,
            gzip,
            &[10, 0, 0, 0],
            Status::GridForm(GridCause::Encoding(5)),
            "",
        ),
    ];
    for (number, case) in cases.iter().enumerate() {
        let words = words_of(alloc, case.words)?;
        let mut shelf = shelf_of(alloc, case)?;
        let mut out = MemSink::new(alloc, 1000, Vec::new(alloc), 10)?;
        let fails = Vec::from_slice(alloc, &[0, 1, 2, 3])?;
        let mut err = MemSink::new(alloc, 1000, fails, 10)?;
        let status = run_freely(&rt, alloc, words.as_slice(), &mut shelf, &mut out, &mut err);
        assert_eq!(rt; status, case.status, "case {number}");
        assert_eq!(rt; out.bytes(), case.out.as_bytes(), "case {number}");
        assert_eq!(rt; err.bytes(), [].as_slice(), "case {number}");
    }
    Ok(())
}

const fn accepts<'a>(table: [&'a [u8]; 3]) -> Case<'a> {
    Case {
        words: "check table=table.tab",
        table,
        out: "accepted\n",
        ..extracts("", &[], "")
    }
}

// Tables that are checked.
fn judged_tables() -> [Case<'static>; 9] {
    [
        accepts([&SQUARE, &[], &[]]),
        accepts([&SQUARE2, &[], &[]]),
        // the ambiguous square joined the other way
        accepts([&SQUARE[..54], &[2, 0, 1, 3], &SQUARE[58..]]),
        // the other diagonal in entry 3
        accepts([&TETRAHEDRON[..38], &[1, 3, 2, 2, 3, 4], &TETRAHEDRON[44..]]),
        Case {
            out: "",
            status: Status::TableRefused { label: 1, rule: 1 },
            line: "table refused: label 1 rule 1\n",
            ..accepts([&SQUARE[..20], &[0, 0, 0, 0], &SQUARE[26..]])
        },
        // the segment of label 1 twice
        Case {
            out: "",
            status: Status::TableRefused { label: 1, rule: 3 },
            line: "table refused: label 1 rule 3\n",
            ..accepts([&SQUARE[..20], &[0, 0, 0, 2, 0, 1, 0, 1], &SQUARE[26..]])
        },
        // the faces of a tuple that is not sound count at the seams
        Case {
            out: "",
            status: Status::TableRefused { label: 0, rule: 6 },
            line: "table refused: label 0 rule 6\n",
            ..accepts([&SQUARE[..64], &[0, 0, 0, 2, 3, 2, 0, 1], &SQUARE[70..]])
        },
        Case {
            out: "",
            status: Status::TableForm(TableForm::Fault {
                place: 111,
                cause: TableCause::Short,
            }),
            line: "table form: short 111\n",
            ..accepts([&SQUARE[..111], &[], &[]])
        },
        Case {
            out_step: 1,
            out_fails: &[3],
            out: "acc",
            status: Status::WriteFault(1),
            line: "write fault: 1\n",
            ..accepts([&SQUARE, &[], &[]])
        },
    ]
}

#[test]
fn tables_are_accepted_or_refused(rt: HostRuntime) -> Result<(), Fail> {
    check_all(&rt, rt.alloc(), &judged_tables())
}
