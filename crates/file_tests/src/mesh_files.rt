//! Files that are read, and files that are refused, as the formats say.

use iso_base::{MemFile, MemShelf, Shelf};
use off_read::{AnyOff, OffFault, read_off};
use std::alloc::Global;
use std::test::Fail;

/// A file, and its vertices with the number of its simplices, or its fault.
type Row = (&'static str, Result<(u32, usize), OffFault>);

const ROWS: [Row; 22] = [
    (
        "OFF\n3 2 0\n0 0 0\n1 0 0\n0 1 0\n3 0 1 2\n3 0 1 2\n",
        Ok((3, 2)),
    ),
    // A comment, counts on the first line, other ways to write a coordinate, a colour, CR LF, no last line end.
    (
        "OFF 3 1 0 # made by hand\r\n1e-3 -.5 +7\r\n0 0 0\r\n0 0 0\r\n3 0 1 2 255 0 0",
        Ok((3, 1)),
    ),
    (
        "# x\n\nnOFF 2\n2 1 0\n0 0 1 1 2 \n1\n\n# x\n\r\t0 red # blue",
        Ok((2, 1)),
    ),
    ("nOFF 4\n1 0 007\n0 0 0 0#", Ok((1, 0))),
    ("OFF 4294967295 0 0\n", Err(OffFault::Short(1))),
    (
        "OFF 0 4294967295 99999999999999999999999\n",
        Err(OffFault::Short(1)),
    ),
    ("OFF 0 4294967296 0", Err(OffFault::Count(1))),
    ("", Err(OffFault::Short(0))),
    ("\n#\nOFF", Err(OffFault::Short(3))),
    (
        "OFF 4 1 4\n0 0 0\n1 0 0\n1 1 0\n0 1 0\n4 0 1 2 3\n",
        Err(OffFault::FaceSize(6)),
    ),
    ("COFF\n", Err(OffFault::Header(1))),
    ("\nNOFF\n", Err(OffFault::Header(2))),
    ("4OFF\n", Err(OffFault::Header(1))),
    ("{ OFF\n", Err(OffFault::Header(1))),
    ("3\n4 4 6\n", Err(OffFault::Header(1))),
    ("OFF BINARY\n", Err(OffFault::Count(1))),
    ("nOFF 03\n", Err(OffFault::Header(1))),
    ("OFF 1 0 0\n0 - 0", Err(OffFault::Coordinate(2))),
    ("OFF 1 0 0\n0 0 0 7\n", Err(OffFault::Extra(2))),
    ("OFF 1 1 0\n0 0 0\n3 0 0 1", Err(OffFault::Index(3))),
    (
        "OFF 3 2 0\n0 0 0 0 0 0 0 0 0\n3 0 1 2 3 0 1 2\n",
        Err(OffFault::Short(3)),
    ),
    (
        "OFF 3 1 0\n0 0 0 0 0 0 0 0 0\n2 0 1\n",
        Err(OffFault::FaceSize(3)),
    ),
];

/// The surface of a tetrahedron, as other programs write it.
const WRITTEN: [&str; 4] = [
    // admesh 0.98
    "OFF\n\
         4 4 0\n\
         \t0.000000 0.000000 0.000000\n\
         \t0.000000 1.000000 0.000000\n\
         \t1.000000 0.000000 0.000000\n\
         \t0.000000 0.000000 1.000000\n\
         \t3 0 1 2\n\
         \t3 0 2 3\n\
         \t3 0 3 1\n\
         \t3 2 1 3\n",
    // gts2oogl of GTS 0.7
    "OFF 4 4 6\n\
         0.000000 1.000000 0.000000\n\
         1.000000 0.000000 0.000000\n\
         0.000000 0.000000 1.000000\n\
         0.000000 0.000000 0.000000\n\
         3 0 2 1\n\
         3 1 2 3\n\
         3 3 0 1\n\
         3 2 0 3\n",
    // ctmconv of OpenCTM 1.0
    "OFF\n\
         \n\
         4 4 0\n\
         0 0 0\n\
         1 0 0\n\
         0 1 0\n\
         0 0 1\n\
         3 0 2 1\n\
         3 0 1 3\n\
         3 0 3 2\n\
         3 1 2 3\n",
    // meshio 7.0
    "OFF\n\
         # Created by meshio\n\
         \n\
         4 4 0\n\
         \n\
         0.0 0.0 0.0\n\
         1.0 0.0 0.0\n\
         0.0 1.0 0.0\n\
         0.0 0.0 1.0\n\
         3 0 2 1\n\
         3 0 1 3\n\
         3 0 3 2\n\
         3 1 2 3\n",
];

/// The numbers of the calls of a shelf that fail, counted from the one that begins the file, and what is answered of a
/// file of 12 bytes, of which a call takes three. Its third word is wrong, and ends in what the third take gives.
type Failing = (&'static [u64], OffFault);

const FAILING: [Failing; 4] = [
    (&[1], OffFault::Shelf(1)),
    // The take that the word ends in, and the last one, which is behind it.
    (&[3], OffFault::Shelf(1)),
    (&[5], OffFault::Shelf(1)),
    // A call that is not made.
    (&[6], OffFault::Count(1)),
];

fn read(alloc: Global, text: &str, fail: &[u64]) -> Result<Result<AnyOff, OffFault>, Fail> {
    let mut files = Vec::new(alloc);
    files.push(MemFile {
        name: String::from_str(alloc, "mesh")?,
        bytes: Vec::from_slice(alloc, text.as_bytes())?,
    })?;
    let mut shelf = MemShelf::new(files, Vec::from_slice(alloc, fail)?, 3);
    shelf.begin("mesh").ok().ok_or("begin")?;
    Ok(read_off(alloc, &mut shelf))
}

fn counts(off: &AnyOff) -> (u32, usize) {
    match off {
        AnyOff::O2(off) => (off.vertices, off.simplices.len()),
        AnyOff::O3(off) => (off.vertices, off.simplices.len()),
        AnyOff::O4(off) => (off.vertices, off.simplices.len()),
    }
}

#[test]
fn files_are_read_or_refused(rt: HostRuntime) -> Result<(), Fail> {
    for (text, want) in &ROWS {
        match (read(rt.alloc(), text, &[])?, want) {
            (Ok(off), Ok(want)) => assert_eq!(rt; counts(&off), *want, "{text}"),
            (Err(fault), Err(want)) => assert_eq!(rt; fault, *want, "{text}"),
            _ => return Err("another answer".into()),
        }
    }
    Ok(())
}

#[test]
fn files_of_other_programs_are_read(rt: HostRuntime) -> Result<(), Fail> {
    for text in &WRITTEN {
        match read(rt.alloc(), text, &[])? {
            Ok(off) => assert_eq!(rt; counts(&off), (4, 4), "{text}"),
            Err(fault) => assert_eq!(rt; fault, OffFault::Memory, "{text}"),
        }
    }
    Ok(())
}

#[test]
fn a_failing_call_is_answered(rt: HostRuntime) -> Result<(), Fail> {
    for (fail, want) in &FAILING {
        match read(rt.alloc(), "OFF 1 x 0\n1\n", fail)? {
            Err(fault) => assert_eq!(rt; fault, *want),
            Ok(_) => return Err("a mesh".into()),
        }
    }
    Ok(())
}
