//! Files, and what they give.

use iso_base::{MemFile, MemShelf, Shelf};
use nrrd_raw::{Field, Grid, GridFault, Header, SliceReader, read_grid, read_header, read_samples};
use std::alloc::{AllocError, Global};
use std::process::Abort;
use std::test::Fail;

/// A shelf with one file, which is begun and given in parts of at most `step` bytes.
fn shelf_of(alloc: Global, bytes: &[u8], step: usize) -> Result<MemShelf, AllocError> {
    failing_shelf(alloc, bytes, step, &[])
}

/// The same, where the calls of `take` with these numbers, counted from 1, are to fail.
fn failing_shelf(
    alloc: Global,
    bytes: &[u8],
    step: usize,
    fails: &[u64],
) -> Result<MemShelf, AllocError> {
    let mut files = Vec::new(alloc);
    files.push(MemFile {
        name: String::from_str(alloc, "grid.nrrd")?,
        bytes: Vec::from_slice(alloc, bytes)?,
    })?;
    let mut shelf = MemShelf::new(files, Vec::from_slice(alloc, fails)?, step.max(1));
    // The file is there.
    let _ = shelf.begin("grid.nrrd");
    Ok(shelf)
}

/// The steps in which each file is given.
const STEPS: [usize; 2] = [1, 1 << 20];

fn refusal(alloc: Global, bytes: &[u8], step: usize) -> Result<Option<GridFault>, AllocError> {
    match read_grid(alloc, &mut shelf_of(alloc, bytes, step)?) {
        Ok(_) => Ok(None),
        Err(fault) => Ok(Some(fault)),
    }
}

/// Each text gives the fault beside it.
fn all_refused(
    rt: &impl Abort,
    alloc: Global,
    front: &str,
    cases: &[(&str, GridFault)],
) -> Result<(), Fail> {
    for (lines, fault) in cases {
        let text = format!(in alloc; "{front}{lines}")?;
        for step in STEPS {
            assert_eq!(rt;
                refusal(alloc, text.as_bytes(), step)?,
                Some(*fault),
                "{text}"
            );
        }
    }
    Ok(())
}

#[test]
fn the_first_line_is_judged_byte_by_byte(rt: HostRuntime) -> Result<(), Fail> {
    let cases = [
        ("", GridFault::Magic),
        ("NRRD0001\r", GridFault::Magic),
        ("NRRD0001\r\r\n\n", GridFault::Magic),
        ("NRRD0001 \n\n", GridFault::Magic),
        ("NRRD0000\n\n", GridFault::Magic),
        ("NRRD0006\n\n", GridFault::Magic),
        ("nrrd0001\n\n", GridFault::Magic),
        ("NRRD0005\n", GridFault::HeaderEnd),
        ("NRRD0001\r\ntype: uint8\n", GridFault::HeaderEnd),
        ("NRRD0002\n\n", GridFault::Missing(Field::SampleType)),
    ];
    all_refused(&rt, rt.alloc(), "", &cases)
}

#[test]
fn the_first_line_with_a_cause_is_answered(rt: HostRuntime) -> Result<(), Fail> {
    let cases = [
        (
            "dimension: 2\nsizes: 2 2\nencoding: raw\n\n",
            GridFault::Missing(Field::SampleType),
        ),
        (
            "type: uint8\nsizes: 2 2\nencoding: raw\n\n",
            GridFault::Missing(Field::Dimension),
        ),
        (
            "type: uint8\ndimension: 2\nencoding: raw\n\n",
            GridFault::Missing(Field::Sizes),
        ),
        (
            "type: uint8\ndimension: 2\nsizes: 2 2\n\n",
            GridFault::Missing(Field::Encoding),
        ),
        (
            "type: short\ndimension: 2\nsizes: 2 2\nencoding: raw\n\n",
            GridFault::Missing(Field::Endian),
        ),
        (
            "type: uint8\ndimension: 3\nsizes: 2 2\nencoding: raw\n\n",
            GridFault::Sizes(4),
        ),
        (
            "sizes: 2 2 2\ntype: uint8\ndimension: 2\nencoding: raw\n\n",
            GridFault::Sizes(2),
        ),
        ("no colon\nencoding: gzip\n\n", GridFault::Line(2)),
        ("encoding: gzip\nno colon\n\n", GridFault::Encoding(2)),
        ("type: uint8\n: no name\n\n", GridFault::Line(3)),
        (" # x\n\n", GridFault::Line(2)),
        ("\r\r\n\n", GridFault::Line(2)),
    ];
    all_refused(&rt, rt.alloc(), "NRRD0001\n", &cases)
}

#[test]
fn fields_have_causes_of_their_own(rt: HostRuntime) -> Result<(), Fail> {
    let cases = [
        ("encoding: gzip\n\n", GridFault::Encoding(5)),
        ("encoding: raw\r\r\n\n", GridFault::Encoding(5)),
        ("encoding: a:=b\n\n", GridFault::Encoding(5)),
        (
            "endian: big\nendian: big\nencoding: raw\n\n",
            GridFault::Repeated(6),
        ),
        ("TYPE: no type\n\n", GridFault::Repeated(5)),
        ("endian: middle\nencoding: raw\n\n", GridFault::Endian(5)),
        (
            "encoding: raw\ndata file: x.raw\n\n",
            GridFault::Detached(6),
        ),
        ("encoding: raw\ndatafile:\n\n", GridFault::Detached(6)),
        ("encoding: raw\nbyte skip: -1\n\n", GridFault::Skip(6)),
        ("encoding: raw\nlineskip: 1\n\n", GridFault::Skip(6)),
        ("encoding: raw\nbyteskip:\n\n", GridFault::Skip(6)),
    ];
    all_refused(
        &rt,
        rt.alloc(),
        "NRRD0001\ntype: uint8\ndimension: 2\nsizes: 2 2\n",
        &cases,
    )
}

#[test]
fn values_that_are_not_taken(rt: HostRuntime) -> Result<(), Fail> {
    let cases = [
        ("type: char\n\n", GridFault::SampleType(2)),
        ("type: float\n\n", GridFault::SampleType(2)),
        ("type: unsigned  char\n\n", GridFault::SampleType(2)),
        ("type: unsigned\tchar\n\n", GridFault::SampleType(2)),
        ("dimension: 1\n\n", GridFault::Dimension(2)),
        ("dimension: 5\n\n", GridFault::Dimension(2)),
        (
            "dimension: 18446744073709551618\n\n",
            GridFault::Dimension(2),
        ),
        ("dimension: +2\n\n", GridFault::Dimension(2)),
        ("sizes: \n\n", GridFault::Sizes(2)),
        ("sizes: 1 2 3 4 5\n\n", GridFault::Sizes(2)),
        ("sizes: 2 0\n\n", GridFault::Sizes(2)),
        ("sizes: 2 4294967296\n\n", GridFault::Sizes(2)),
        ("sizes: 2,2\n\n", GridFault::Sizes(2)),
    ];
    all_refused(&rt, rt.alloc(), "NRRD0001\n", &cases)
}

#[test]
fn samples_are_counted(rt: HostRuntime) -> Result<(), Fail> {
    let cases = [
        (
            "dimension: 2\nsizes: 16384 16384\n\n",
            GridFault::TooLarge(268435456),
        ),
        (
            "dimension: 2\nsizes: 16384 8192\n\n",
            GridFault::DataShort(0),
        ),
        (
            "dimension: 4\nsizes: 4294967295 4294967295 4294967295 4294967295\n\n",
            GridFault::TooLarge(340282366604025813516997721482669850625),
        ),
    ];
    all_refused(
        &rt,
        rt.alloc(),
        "NRRD0001\ntype: uint8\nencoding: raw\n",
        &cases,
    )
}

/// The lines of a grid of 2 x 2 bytes, 60 bytes with their ends.
const SQUARE: &str = "NRRD0001\ntype: uint8\ndimension: 2\nsizes: 2 2\nencoding: raw\n\n";

#[test]
fn no_call_follows_the_one_that_decides(rt: HostRuntime) -> Result<(), Fail> {
    // Lines, what stands behind them, how many calls are made where each gives one byte, and the answer.
    let cases = [
        ("", "NR D0001\n", 3, Some(GridFault::Magic)),
        ("", "NRRD0006\n", 8, Some(GridFault::Magic)),
        ("", "NRRD0001 \n", 9, Some(GridFault::Magic)),
        ("", "NRRD0001\rx", 10, Some(GridFault::Magic)),
        ("", "NRRD0001", 9, Some(GridFault::Magic)),
        ("", "NRRD0001\nx", 11, Some(GridFault::HeaderEnd)),
        ("", "NRRD0001\nx\n\ny", 12, Some(GridFault::Line(2))),
        (SQUARE, "abc", 64, Some(GridFault::DataShort(3))),
        (SQUARE, "abcd", 65, None),
        (SQUARE, "abcdef", 65, Some(GridFault::Trailing)),
    ];
    for (lines, rest, calls, answer) in cases {
        let text = format!(in rt.alloc(); "{lines}{rest}")?;
        for call in 1..calls + 2 {
            let mut shelf = failing_shelf(rt.alloc(), text.as_bytes(), 1, &[call])?;
            let expected = if call <= calls {
                Some(GridFault::Shelf(1))
            } else {
                answer
            };
            let found = match read_grid(rt.alloc(), &mut shelf) {
                Ok(_) => None,
                Err(fault) => Some(fault),
            };
            assert_eq!(rt; found, expected, "{text} {call}");
        }
    }
    Ok(())
}

/// Each text gives a grid of these samples.
fn all_read(rt: &impl Abort, alloc: Global, cases: &[(&str, &[u8], &[i64])]) -> Result<(), Fail> {
    for (lines, data, samples) in cases {
        let mut bytes = Vec::from_slice(alloc, lines.as_bytes())?;
        bytes.extend_from_slice(data)?;
        for step in STEPS {
            let grid = read_grid(alloc, &mut shelf_of(alloc, &bytes, step)?)?;
            assert_eq!(rt; grid.samples.as_slice(), *samples, "{lines}");
        }
    }
    Ok(())
}

const SCANNED: &str = "NRRD0004\r
# Complete NRRD file format specification at:\r
# http://teem.sourceforge.net/nrrd/format.html\r
content: sample\r
type: unsigned char\r
dimension: 3\r
space: left-posterior-superior\r
sizes: 2 2 2\r
space directions: (1,0,0) (0,1,0) (0,0,1)\r
kinds: domain domain domain\r
endian: little\r
encoding: raw\r
space origin: (0,0,0)\r
operator:=first trial\r
\r
";

#[test]
fn headers_of_many_spellings_are_read(rt: HostRuntime) -> Result<(), Fail> {
    let front = "NRRD0001\ntype: uint8\ndimension: 2\nsizes: 1 2\nencoding: raw\n\n";
    let cases: [(&str, &[u8], &[i64]); 5] = [
        (front, &[10, 255], &[10, 255]),
        (
            SCANNED,
            &[10, 0, 0, 0, 0, 0, 0, 200],
            &[10, 0, 0, 0, 0, 0, 0, 200],
        ),
        (
            "NRRD0005\nTYPE:\tUINT8 \nSizes:  2   1\t\nDimension:0002\nENCODING: Raw\nEndian: BIG\n\n",
            &[1, 2],
            &[1, 2],
        ),
        (
            "NRRD0001\n:=\na:=b:c\n # x: y\ncontent:\nline  skip: 9\nline skip: 0\nlineskip: 00\nline skip: 0\ntype: uint8\ndimension: 2\nsizes: 1 1\nencoding: raw\n\n",
            &[7],
            &[7],
        ),
        (
            "NRRD0001\ntype: int8\ndimension: 2\nsizes: 1 2\nencoding: raw\n\n",
            &[10, 255],
            &[10, -1],
        ),
    ];
    all_read(&rt, rt.alloc(), &cases)
}

#[test]
fn samples_are_read_in_both_orders(rt: HostRuntime) -> Result<(), Fail> {
    let cases: [(&str, &[u8], &[i64]); 8] = [
        (
            "type: short\nendian: big\n\n",
            b"\xff\xfb\x01\x02",
            &[-5, 258],
        ),
        (
            "type: short\nendian: little\n\n",
            b"\xfb\xff\x01\x02",
            &[-5, 513],
        ),
        (
            "type: ushort\nendian: big\n\n",
            b"\xff\xfb\x01\x02",
            &[65531, 258],
        ),
        (
            "type: ushort\nendian: little\n\n",
            b"\xfb\xff\x01\x02",
            &[65531, 513],
        ),
        (
            "type: int\nendian: big\n\n",
            b"\x80\x00\x00\x00\x01\x02\x03\x04",
            &[-2147483648, 16909060],
        ),
        (
            "type: int\nendian: little\n\n",
            b"\xfe\xff\xff\xff\x01\x02\x03\x04",
            &[-2, 67305985],
        ),
        (
            "type: uint\nendian: big\n\n",
            b"\x80\x00\x00\x00\x01\x02\x03\x04",
            &[2147483648, 16909060],
        ),
        (
            "type: uint\nendian: little\n\n",
            b"\xfe\xff\xff\xff\x01\x02\x03\x04",
            &[4294967294, 67305985],
        ),
    ];
    for (lines, data, samples) in cases {
        let text = format!(in rt.alloc();
            "NRRD0001\ndimension: 2\nsizes: 2 1\nencoding: raw\n{lines}"
        )?;
        all_read(&rt, rt.alloc(), &[(text.as_str(), data, samples)])?;
    }
    Ok(())
}

#[test]
fn each_sample_name_is_read(rt: HostRuntime) -> Result<(), Fail> {
    let names = [
        ("signed char", 1, true),
        ("int8", 1, true),
        ("int8_t", 1, true),
        ("uchar", 1, false),
        ("unsigned char", 1, false),
        ("uint8", 1, false),
        ("uint8_t", 1, false),
        ("short", 2, true),
        ("short int", 2, true),
        ("signed short", 2, true),
        ("signed short int", 2, true),
        ("int16", 2, true),
        ("int16_t", 2, true),
        ("ushort", 2, false),
        ("unsigned short", 2, false),
        ("unsigned short int", 2, false),
        ("uint16", 2, false),
        ("uint16_t", 2, false),
        ("int", 4, true),
        ("signed int", 4, true),
        ("int32", 4, true),
        ("int32_t", 4, true),
        ("uint", 4, false),
        ("unsigned int", 4, false),
        ("uint32", 4, false),
        ("uint32_t", 4, false),
    ];
    for (name, width, signed) in names {
        let text = format!(in rt.alloc();
            "NRRD0003\ntype: {name}\ndimension: 3\nsizes: 5 6 7\nendian: big\nencoding: raw\n\nrest"
        )?;
        let mut shelf = shelf_of(rt.alloc(), text.as_bytes(), 8)?;
        let header = Header {
            dims: 3,
            sizes: [5, 6, 7, 1],
            width,
            signed,
            big: width > 1,
        };
        assert_eq!(rt; read_header(&mut shelf), Ok(header), "{name}");
        let mut rest = [0; 8];
        assert_eq!(rt; shelf.take(&mut rest), Ok(4));
        assert_eq!(rt; &rest[..4], b"rest".as_slice());
    }
    Ok(())
}

#[test]
fn a_header_has_at_most_65_536_bytes(rt: HostRuntime) -> Result<(), Fail> {
    let cases = [
        (65473, "\n\nx", None),
        (65474, "\n\nx", None),
        (65475, "\n\nx", Some(GridFault::HeaderLong)),
        (65475, "", Some(GridFault::HeaderEnd)),
        (65476, "", Some(GridFault::HeaderLong)),
    ];
    for (fill, end, fault) in cases {
        let mut bytes = Vec::from_slice(
            rt.alloc(),
            b"NRRD0001\ntype: uint8\ndimension: 2\nsizes: 1 1\nencoding: raw\n#",
        )?;
        let comment = vec![in rt.alloc(); b'c'; fill]?;
        bytes.extend_from_slice(&comment)?;
        bytes.extend_from_slice(end.as_bytes())?;
        for step in STEPS {
            assert_eq!(rt; refusal(rt.alloc(), &bytes, step)?, fault, "{fill}");
        }
    }
    Ok(())
}

#[test]
fn samples_are_read_behind_a_header(rt: HostRuntime) -> Result<(), Fail> {
    let header = Header {
        dims: 2,
        sizes: [1, 3, 1, 1],
        width: 1,
        signed: true,
        big: false,
    };
    let mut shelf = shelf_of(rt.alloc(), b"\x00\x7f\x80", 2)?;
    let grid = read_samples(rt.alloc(), &mut shelf, &header)?;
    assert_eq!(rt; grid.dims, 2);
    assert_eq!(rt; grid.sizes, [1, 3, 1, 1]);
    assert_eq!(rt; grid.samples.as_slice(), [0, 127, -128].as_slice());
    Ok(())
}

const SHORTS: &str =
    "NRRD0001\ntype: ushort\nendian: big\ndimension: 2\nsizes: 1 3\nencoding: raw\n\n";

const CUBE: &str = "NRRD0001\ntype: uint8\ndimension: 3\nsizes: 2 1 1\nencoding: raw\n\n";

// Lines, the bytes behind them, how many slices are given and their samples, and the refusal, or none where the file
// ends.
const SLICES: [(&str, &str, usize, &[i64], Option<GridFault>); 12] = [
    (SQUARE, "", 0, &[], Some(GridFault::DataShort(0))),
    (SQUARE, "a", 0, &[], Some(GridFault::DataShort(1))),
    (SQUARE, "ab", 1, &[97, 98], Some(GridFault::DataShort(2))),
    (SQUARE, "abc", 1, &[97, 98], Some(GridFault::DataShort(3))),
    (SQUARE, "abcd", 2, &[97, 98, 99, 100], None),
    (
        SQUARE,
        "abcde",
        2,
        &[97, 98, 99, 100],
        Some(GridFault::Trailing),
    ),
    (
        SHORTS,
        "abcde",
        2,
        &[24930, 25444],
        Some(GridFault::DataShort(5)),
    ),
    (SHORTS, "abcdef", 3, &[24930, 25444, 25958], None),
    (
        SHORTS,
        "abcdefg",
        3,
        &[24930, 25444, 25958],
        Some(GridFault::Trailing),
    ),
    (CUBE, "a", 0, &[], Some(GridFault::DataShort(1))),
    (CUBE, "ab", 1, &[97, 98], None),
    (CUBE, "abc", 1, &[97, 98], Some(GridFault::Trailing)),
];

#[test]
fn slices_are_given_up_to_the_end_of_the_file(rt: HostRuntime) -> Result<(), Fail> {
    for (lines, data, count, samples, refusal) in SLICES {
        let text = format!(in rt.alloc(); "{lines}{data}")?;
        for step in STEPS {
            let mut shelf = shelf_of(rt.alloc(), text.as_bytes(), step)?;
            let mut reader = SliceReader::new(&read_header(&mut shelf)?)?;
            let mut slice = Vec::new(rt.alloc());
            let mut all = Vec::new(rt.alloc());
            for _ in 0..count {
                assert_eq!(rt;
                    reader.step(rt.alloc(), &mut shelf, &mut slice),
                    Ok(true),
                    "{text}"
                );
                all.extend_from_slice(slice.as_slice())?;
            }
            assert_eq!(rt; all.as_slice(), samples, "{text}");
            let end = match refusal {
                Some(fault) => Err(fault),
                None => Ok(false),
            };
            assert_eq!(rt;
                reader.step(rt.alloc(), &mut shelf, &mut slice),
                end,
                "{text}"
            );
            assert_eq!(rt;
                reader.step(rt.alloc(), &mut shelf, &mut slice),
                Ok(false),
                "{text}"
            );
        }
    }
    Ok(())
}

#[test]
fn each_call_of_a_slice_reader_may_fail(rt: HostRuntime) -> Result<(), Fail> {
    // Two slices of two bytes each and a trailing byte, each given by a call of its own behind the 60 calls of the lines:
    // the call that fails, and how many slices are given before it.
    let text = format!(in rt.alloc(); "{SQUARE}abcde")?;
    for (call, given) in [(61, 0), (62, 0), (63, 1), (64, 1), (65, 2), (66, 2)] {
        let mut shelf = failing_shelf(rt.alloc(), text.as_bytes(), 1, &[call])?;
        let mut reader = SliceReader::new(&read_header(&mut shelf)?)?;
        let mut slice = Vec::new(rt.alloc());
        for _ in 0..given {
            assert_eq!(rt;
                reader.step(rt.alloc(), &mut shelf, &mut slice),
                Ok(true),
                "{call}"
            );
        }
        let fault = if call <= 65 {
            GridFault::Shelf(1)
        } else {
            GridFault::Trailing
        };
        assert_eq!(rt;
            reader.step(rt.alloc(), &mut shelf, &mut slice),
            Err(fault),
            "{call}"
        );
        assert_eq!(rt;
            reader.step(rt.alloc(), &mut shelf, &mut slice),
            Ok(false),
            "{call}"
        );
    }
    Ok(())
}

#[test]
fn a_reader_of_too_many_samples_is_refused(rt: HostRuntime) -> Result<(), Fail> {
    let header = Header {
        dims: 2,
        sizes: [16384, 16384, 1, 1],
        width: 1,
        signed: false,
        big: false,
    };
    match SliceReader::new(&header) {
        Ok(_) => assert!(rt; false),
        Err(fault) => assert_eq!(rt; fault, GridFault::TooLarge(268435456)),
    }
    Ok(())
}

#[test]
fn a_grid_is_made_exactly_where_it_is_regular(rt: HostRuntime) -> Result<(), Fail> {
    let cases: [(&[u64], &[i64], bool); 13] = [
        (&[2, 1], &[-2147483648, 4294967295], true),
        (&[1, 3, 1], &[5, -6, 7], true),
        (&[1, 1, 1, 1], &[0], true),
        (&[], &[0], false),
        (&[1], &[0], false),
        (&[1, 1, 1, 1, 1], &[0], false),
        (&[2, 0], &[], false),
        (&[4294967296, 1], &[0], false),
        (&[65536, 65536, 65536, 65536], &[], false),
        (&[2, 2], &[0, 0, 0], false),
        (&[2, 2], &[0, 0, 0, 0, 0], false),
        (&[1, 1], &[-2147483649], false),
        (&[1, 1], &[4294967296], false),
    ];
    for (sizes, samples, accepted) in cases {
        match Grid::new(sizes, Vec::from_slice(rt.alloc(), samples)?) {
            Ok(grid) => {
                assert!(rt; accepted, "{sizes:?}");
                assert_eq!(rt; usize::from(grid.dims), sizes.len());
                assert_eq!(rt; &grid.sizes[..sizes.len()], sizes);
                assert_eq!(rt; grid.samples.as_slice(), samples);
            }
            Err(back) => {
                assert!(rt; !accepted, "{sizes:?}");
                assert_eq!(rt; back.as_slice(), samples);
            }
        }
    }
    Ok(())
}
