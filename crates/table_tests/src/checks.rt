//! Tables of squares and simplices, and spoiled ones.

use cell_lattice::{CubeCell, SimplexCell};
use iso_base::{Gate, OpenGate};
use std::alloc::Global;
use std::sync::atomic::{AtomicU64, Ordering};
use std::test::Fail;
use table_check::{
    CertifyFault, Verdict, certify, certify_ordered, certify_parts, check, check_ordered,
    check_parts,
};
use table_file::{AnyTable, Kind, decode};
use worked_tables::{SQUARE, TETRAHEDRON, TRIANGLE};

/// The verdict on the table of these bytes, with those from `from` up to `to` replaced.
fn verdict(
    alloc: Global,
    bytes: &[u8],
    from: usize,
    to: usize,
    by: &[u8],
) -> Result<Verdict, Fail> {
    if from > to || to > bytes.len() {
        return Err("no such bytes".into());
    }
    let mut spoiled = Vec::from_slice(alloc, &bytes[..from])?;
    spoiled.extend_from_slice(by)?;
    spoiled.extend_from_slice(&bytes[to..])?;
    if spoiled.len() > 1 << 30 {
        return Err("too many bytes".into());
    }
    match decode(alloc, &spoiled)? {
        AnyTable::T2(table) => match table.kind() {
            Kind::Cube => Ok(check::<CubeCell<2>, 2>(alloc, &table)?),
            Kind::Simplex => Ok(check::<SimplexCell<2>, 2>(alloc, &table)?),
            Kind::Pyramid => Err("a pyramid in two dimensions".into()),
        },
        AnyTable::T3(table) => match table.kind() {
            Kind::Simplex => Ok(check::<SimplexCell<3>, 3>(alloc, &table)?),
            _ => Err("no simplices".into()),
        },
        AnyTable::T4(_) => Err("four dimensions".into()),
    }
}

fn refused(label: u32, rule: u8) -> Verdict {
    Verdict::Refused { label, rule }
}

#[test]
fn tables_of_the_square(rt: HostRuntime) -> Result<(), Fail> {
    let alloc = rt.alloc();
    assert_eq!(rt; verdict(alloc, &SQUARE, 0, 0, &[])?, Verdict::Accepted);
    // label 6 joined the other way
    let joined = verdict(alloc, &SQUARE, 54, 58, &[2, 0, 1, 3])?;
    assert_eq!(rt; joined, Verdict::Accepted);
    // the edges of label 1 exchanged, and its entry empty
    assert_eq!(rt; verdict(alloc, &SQUARE, 24, 26, &[1, 0])?, refused(1, 4));
    assert_eq!(rt; verdict(alloc, &SQUARE, 20, 26, &[0; 4])?, refused(1, 1));
    // a tuple of label 8 over edges that are not bipolar counts where label 0 meets it, if its edges differ
    let other = verdict(alloc, &SQUARE, 64, 70, &[0, 0, 0, 2, 3, 2, 0, 1])?;
    assert_eq!(rt; other, refused(0, 6));
    let twice = verdict(alloc, &SQUARE, 64, 70, &[0, 0, 0, 2, 3, 2, 0, 0])?;
    assert_eq!(rt; twice, refused(8, 1));
    Ok(())
}

#[test]
fn tables_of_simplices(rt: HostRuntime) -> Result<(), Fail> {
    let alloc = rt.alloc();
    assert_eq!(rt; verdict(alloc, &TRIANGLE, 0, 0, &[])?, Verdict::Accepted);
    assert_eq!(rt; verdict(alloc, &TRIANGLE, 24, 26, &[1, 0])?, refused(1, 4));
    let tetrahedron = verdict(alloc, &TETRAHEDRON, 0, 0, &[])?;
    assert_eq!(rt; tetrahedron, Verdict::Accepted);
    // label 3 with the other diagonal
    let diagonal = verdict(alloc, &TETRAHEDRON, 38, 44, &[1, 3, 2, 2, 3, 4])?;
    assert_eq!(rt; diagonal, Verdict::Accepted);
    // a tuple of label 3 twice, which label 1 can meet
    let twice = [0, 0, 0, 3, 1, 4, 2, 1, 3, 4, 1, 3, 4];
    assert_eq!(rt;
        verdict(alloc, &TETRAHEDRON, 34, 44, &twice)?,
        refused(1, 6)
    );
    Ok(())
}

#[test]
fn tables_are_certified_or_handed_back(rt: HostRuntime) -> Result<(), Fail> {
    let alloc = rt.alloc();
    for second in [0, 1] {
        let mut bytes = SQUARE;
        bytes[24] = second;
        bytes[25] = 1 - second;
        let AnyTable::T2(table) = decode(alloc, &bytes)? else {
            return Err("no table of two dimensions".into());
        };
        if table.kind() != Kind::Cube {
            return Err("no table of the square".into());
        }
        match certify::<CubeCell<2>, 2>(alloc, table) {
            Ok(checked) => assert!(rt; second == 0 && checked.table().labels() == 16),
            Err(CertifyFault::Refused { table, label, rule }) => {
                assert_eq!(rt; (second, label, rule), (1, 1, 4));
                assert_eq!(rt; table.labels(), 16);
            }
            Err(CertifyFault::Memory { table: _table }) => return Err("no memory".into()),
        }
    }
    Ok(())
}

#[test]
fn tables_are_certified_for_ordered_simplices(rt: HostRuntime) -> Result<(), Fail> {
    let alloc = rt.alloc();
    // the table, that with the other diagonal in label 3, and that with a tuple of label 3 twice
    let cases = [
        ([0, 0, 0, 2, 1, 4, 2, 1, 3, 4].as_slice(), Verdict::Accepted),
        ([0, 0, 0, 2, 1, 3, 2, 2, 3, 4].as_slice(), Verdict::Accepted),
        (
            [0, 0, 0, 3, 1, 4, 2, 1, 3, 4, 1, 3, 4].as_slice(),
            refused(1, 6),
        ),
    ];
    for (entry, verdict) in cases {
        let mut bytes = Vec::from_slice(alloc, &TETRAHEDRON[..34])?;
        bytes.extend_from_slice(entry)?;
        bytes.extend_from_slice(&TETRAHEDRON[44..])?;
        if bytes.len() > 1 << 30 {
            return Err("too many bytes".into());
        }
        let AnyTable::T3(table) = decode(alloc, &bytes)? else {
            return Err("no table of three dimensions".into());
        };
        if table.kind() != Kind::Simplex {
            return Err("no table of the simplex".into());
        }
        assert_eq!(rt; check_ordered(alloc, &table)?, verdict);
        match certify_ordered(alloc, table) {
            Ok(checked) => {
                assert!(rt; verdict == Verdict::Accepted && checked.table().labels() == 16);
            }
            Err(CertifyFault::Refused { table, label, rule }) => {
                assert_eq!(rt; verdict, refused(label, rule));
                assert_eq!(rt; table.labels(), 16);
            }
            Err(CertifyFault::Memory { table: _table }) => return Err("no memory".into()),
        }
    }
    Ok(())
}

/// A gate that notes the set of the pieces that passed, and counts them.
#[derive(Drop)]
struct Noted {
    pieces: AtomicU64,
    passes: AtomicU64,
}

impl Gate for Noted {
    fn pass(&self, piece: u32) {
        if piece < 64 {
            self.pieces.fetch_or(1 << piece, Ordering::SeqCst);
        }
        self.passes.fetch_add(1, Ordering::SeqCst);
    }
}

#[test]
fn parts_have_the_same_answer(rt: HostRuntime) -> Result<(), Fail> {
    let alloc = rt.alloc();
    // the table of the square, with bytes of label 1 or of label 8 changed
    let cases = [
        (24, 0, 25, 1, Verdict::Accepted),
        (24, 1, 25, 0, refused(1, 4)),
        (68, 2, 69, 3, refused(2, 6)),
    ];
    for (first, one, second, two, verdict) in cases {
        for parts in [1, 2, 3, 7, 16, 64u32] {
            let mut bytes = SQUARE;
            bytes[first] = one;
            bytes[second] = two;
            let AnyTable::T2(table) = decode(alloc, &bytes)? else {
                return Err("no table of two dimensions".into());
            };
            if table.kind() != Kind::Cube {
                return Err("no table of the square".into());
            }
            let gate = Noted {
                pieces: AtomicU64::new(0),
                passes: AtomicU64::new(0),
            };
            let found = check_parts::<HostRuntime, CubeCell<2>, 2, Noted>(
                &rt, alloc, &table, parts, &gate,
            )?;
            assert_eq!(rt; found, verdict);
            let pieces = gate.pieces.load(Ordering::SeqCst);
            assert_eq!(rt; pieces, u64::MAX >> (64 - parts));
            let passes = gate.passes.load(Ordering::SeqCst);
            assert_eq!(rt; passes, u64::from(parts));
            let certified = certify_parts::<HostRuntime, CubeCell<2>, 2, OpenGate>(
                &rt, alloc, table, parts, &OpenGate,
            );
            assert_eq!(rt; certified.is_ok(), verdict == Verdict::Accepted);
        }
    }
    Ok(())
}
