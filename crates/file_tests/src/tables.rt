//! Tables and spoiled ones.

use std::alloc::Global;
use std::test::Fail;
use table_file::{AnyTable, Kind, Table, TableFault, decode, encode, encode2};
use worked_tables::{SQUARE, SQUARE2, TRIANGLE};

/// The last eight bytes of the heads of the seven kinds.
const KINDS: [[u8; 8]; 7] = [
    [0, 2, 4, 4, 0, 0, 0, 16],
    [0, 3, 8, 12, 0, 0, 1, 0],
    [0, 4, 16, 32, 0, 1, 0, 0],
    [1, 2, 3, 3, 0, 0, 0, 8],
    [1, 3, 4, 6, 0, 0, 0, 16],
    [1, 4, 5, 10, 0, 0, 0, 32],
    [2, 3, 5, 8, 0, 0, 0, 32],
];

/// Why the bytes are no table.
fn fault_of(alloc: Global, bytes: &[u8]) -> Option<TableFault> {
    if bytes.len() > 1 << 30 {
        return None;
    }
    match decode(alloc, bytes) {
        Ok(_table) => None,
        Err(fault) => Some(fault),
    }
}

#[test]
fn reads_tables_of_the_plane(rt: HostRuntime) -> Result<(), Fail> {
    let AnyTable::T2(square) = decode(rt.alloc(), &SQUARE)? else {
        return Err("no table of two dimensions".into());
    };
    assert!(rt; square.kind() == Kind::Cube);
    assert_eq!(rt; square.labels(), 16);
    assert_eq!(rt; square.tuples(6).len(), 2);
    assert_eq!(rt; square.tuples(6)[0], [1, 0]);
    assert_eq!(rt; square.tuples(6)[1], [2, 3]);
    assert!(rt; square.tuples(15).is_empty());
    let AnyTable::T2(triangle) = decode(rt.alloc(), &TRIANGLE)? else {
        return Err("no table of two dimensions".into());
    };
    assert!(rt; triangle.kind() == Kind::Simplex);
    assert_eq!(rt; triangle.labels(), 8);
    assert_eq!(rt; triangle.tuples(5).len(), 1);
    assert_eq!(rt; triangle.tuples(5)[0], [0, 2]);
    Ok(())
}

#[test]
fn names_each_cut(rt: HostRuntime) {
    for length in 0..112 {
        let fault = fault_of(rt.alloc(), &SQUARE[..length]);
        assert_eq!(rt;
            fault,
            Some(TableFault::Short(length as u64)),
            "cut to {length} bytes"
        );
    }
}

#[test]
fn names_each_wrong_byte(rt: HostRuntime) {
    // Three bytes that are set, how many bytes are left, and the fault.
    let cases = [
        (
            [(107, 200), (107, 200), (107, 200)],
            112,
            TableFault::EdgeNumber(107),
        ),
        (
            [(111, 200), (111, 200), (111, 200)],
            112,
            TableFault::Short(112),
        ),
        ([(112, 0), (112, 0), (112, 0)], 113, TableFault::Extra(112)),
        ([(9, 5), (9, 5), (9, 5)], 112, TableFault::Kind(9)),
        ([(10, 5), (10, 5), (10, 5)], 112, TableFault::Kind(10)),
        ([(16, 32), (16, 32), (16, 32)], 17, TableFault::Short(17)),
        // The greatest count, without a wrong edge behind it and with one, and a count past it.
        ([(16, 16), (16, 16), (16, 16)], 112, TableFault::Short(112)),
        (
            [(16, 16), (50, 200), (50, 200)],
            112,
            TableFault::EdgeNumber(50),
        ),
        ([(16, 16), (19, 1), (50, 200)], 112, TableFault::Short(112)),
        // A wrong edge before such a count, and a number that just is no edge.
        (
            [(24, 200), (26, 32), (26, 32)],
            112,
            TableFault::EdgeNumber(24),
        ),
        ([(25, 4), (25, 4), (25, 4)], 112, TableFault::EdgeNumber(25)),
    ];
    for (changes, length, expected) in cases {
        let mut bytes = [0; 113];
        bytes[..112].copy_from_slice(&SQUARE);
        for (place, byte) in changes {
            assert!(rt; place < 113);
            bytes[place] = byte;
        }
        assert!(rt; length <= 113);
        assert_eq!(rt;
            fault_of(rt.alloc(), &bytes[..length]),
            Some(expected),
            "expected {expected:?}"
        );
    }
}

#[test]
fn names_each_byte_of_a_head(rt: HostRuntime) {
    for kind in KINDS {
        let mut head = [0; 16];
        head[..8].copy_from_slice(&SQUARE[..8]);
        head[8..].copy_from_slice(&kind);
        assert_eq!(rt; fault_of(rt.alloc(), &head), Some(TableFault::Short(16)));
        for place in 0..16 {
            let mut wrong = head;
            wrong[place] = 99;
            let expected = if place < 8 {
                TableFault::Magic(place as u64)
            } else {
                TableFault::Kind(place as u64)
            };
            assert_eq!(rt;
                fault_of(rt.alloc(), &wrong),
                Some(expected),
                "byte {place} of {head:?}"
            );
        }
    }
}

#[test]
fn writes_what_was_read(rt: HostRuntime) -> Result<(), Fail> {
    let AnyTable::T2(square) = decode(rt.alloc(), &SQUARE)? else {
        return Err("no table of two dimensions".into());
    };
    let bytes = encode(rt.alloc(), &square).map_err(|_| "memory")?;
    assert_eq!(rt; bytes.as_slice(), SQUARE.as_slice());
    let AnyTable::T2(triangle) = decode(rt.alloc(), &TRIANGLE)? else {
        return Err("no table of two dimensions".into());
    };
    let bytes = encode(rt.alloc(), &triangle).map_err(|_| "memory")?;
    assert_eq!(rt; bytes.as_slice(), TRIANGLE.as_slice());
    Ok(())
}

#[test]
fn takes_the_entries_of_tables(rt: HostRuntime) -> Result<(), Fail> {
    // The shape of the cells, the number of entries, a number in each of them, and whether they make a table.
    let cases = [
        (Kind::Cube, 16, 3, true),
        (Kind::Cube, 16, 4, false),
        (Kind::Cube, 15, 3, false),
        (Kind::Simplex, 8, 2, true),
        (Kind::Simplex, 9, 2, false),
        (Kind::Pyramid, 32, 0, false),
    ];
    for (kind, count, edge, is_table) in cases {
        let mut entries = Vec::new(rt.alloc());
        for _label in 0..count {
            entries.push(vec![in rt.alloc(); [0, edge]]?)?;
        }
        match Table::<2>::from_entries(kind, entries) {
            Ok(table) => {
                assert!(rt; is_table);
                assert!(rt; table.kind() == kind);
                assert_eq!(rt; table.labels(), count);
            }
            Err(entries) => {
                assert!(rt; !is_table);
                assert_eq!(rt; entries.len(), count as usize);
            }
        }
    }
    Ok(())
}

#[test]
fn reads_and_writes_version_2(rt: HostRuntime) -> Result<(), Fail> {
    for bytes in [SQUARE.as_slice(), &SQUARE2] {
        let AnyTable::T2(square) = decode(rt.alloc(), bytes)? else {
            return Err("no table of two dimensions".into());
        };
        let first = encode(rt.alloc(), &square).map_err(|_| "memory")?;
        assert_eq!(rt; first.as_slice(), SQUARE.as_slice());
        let second = encode2(rt.alloc(), &square).map_err(|_| "memory")?;
        assert_eq!(rt; second.as_slice(), SQUARE2.as_slice());
    }
    Ok(())
}

#[test]
fn names_each_fault_of_version_2(rt: HostRuntime) {
    // A byte that is set, its value, how many bytes are left, and the fault.
    let cases = [
        (7, b'3', 276, TableFault::Magic(7)),
        (19, 17, 276, TableFault::Index(16)),
        (19, 15, 276, TableFault::Index(24)),
        (23, 2, 276, TableFault::Index(32)),
        (35, 1, 276, TableFault::Index(32)),
        (179, 16, 276, TableFault::Index(176)),
        (31, 172, 276, TableFault::Index(24)),
        (43, 195, 276, TableFault::Index(36)),
        (191, 2, 276, TableFault::Count(188)),
        (191, 0, 276, TableFault::Count(188)),
        (192, 9, 276, TableFault::EdgeNumber(192)),
        (192, 4, 276, TableFault::EdgeNumber(192)),
        (273, 0, 276, TableFault::Count(270)),
        (270, 255, 276, TableFault::Count(270)),
        (270, 16, 276, TableFault::Count(270)),
        (271, 255, 276, TableFault::Short(276)),
        (275, 0, 275, TableFault::Short(275)),
        (276, 0, 277, TableFault::Extra(276)),
        // A label that the end cuts off, wrong already, and a count of records that is not there.
        (20, 255, 23, TableFault::Short(23)),
        (20, 255, 24, TableFault::Index(20)),
        (16, 0, 16, TableFault::Short(16)),
    ];
    for (place, byte, length, expected) in cases {
        let mut bytes = [0; 277];
        bytes[..276].copy_from_slice(&SQUARE2);
        assert!(rt; place < 277);
        bytes[place] = byte;
        assert!(rt; length <= 277);
        assert_eq!(rt;
            fault_of(rt.alloc(), &bytes[..length]),
            Some(expected),
            "expected {expected:?}"
        );
    }
}

#[test]
fn reads_tables_with_few_entries(rt: HostRuntime) -> Result<(), Fail> {
    for kind in KINDS {
        let mut bytes = [0; 21];
        bytes[..8].copy_from_slice(&SQUARE2[..8]);
        bytes[8..16].copy_from_slice(&kind);
        assert_eq!(rt; fault_of(rt.alloc(), &bytes[..20]), None);
        assert_eq!(rt; fault_of(rt.alloc(), &bytes), Some(TableFault::Extra(20)));
        assert_eq!(rt;
            fault_of(rt.alloc(), &bytes[..19]),
            Some(TableFault::Short(19))
        );
    }
    Ok(())
}
