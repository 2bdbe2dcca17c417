//! The faults of spoiled tables, worked by hand from the rules.

use crate::{Fault, fault_text, table_faults};
use cell_lattice::{CubeCell, SimplexCell};
use seam_traces::Clash;
use std::alloc::Global;
use std::test::Fail;
use table_file::{AnyTable, Kind, decode};
use worked_tables::{SQUARE, TETRAHEDRON};

/// The faults of the table of these bytes, with those from `from` up to `to` replaced.
fn faults(
    alloc: Global,
    bytes: &[u8],
    from: usize,
    to: usize,
    by: &[u8],
) -> Result<Vec<Fault>, Fail> {
    if from > to || to > bytes.len() {
        return Err("no such bytes".into());
    }
    let mut spoiled = Vec::from_slice(alloc, &bytes[..from])?;
    spoiled.extend_from_slice(by)?;
    spoiled.extend_from_slice(&bytes[to..])?;
    if spoiled.len() > 1 << 30 {
        return Err("too many bytes".into());
    }
    match decode(alloc, &spoiled)? {
        AnyTable::T2(table) => match table.kind() {
            Kind::Cube => Ok(table_faults::<CubeCell<2>, 2>(alloc, &table)?),
            _ => Err("no squares".into()),
        },
        AnyTable::T3(table) => match table.kind() {
            Kind::Simplex => Ok(table_faults::<SimplexCell<3>, 3>(alloc, &table)?),
            _ => Err("no simplices".into()),
        },
        AnyTable::T4(_) => Err("four dimensions".into()),
    }
}

fn fails(label: u32, rule: u8) -> Fault {
    Fault {
        label,
        rule,
        clash: None,
    }
}

fn clashes(label: u32, facet: u8, other: u32, other_facet: u8) -> Fault {
    let clash = Clash {
        facet,
        other,
        other_facet,
    };
    Fault {
        label,
        rule: 6,
        clash: Some(clash),
    }
}

/// The faults where label 1 fails a rule and the labels that meet it do not find its faces, or find them turned.
fn of_label_1(rule: u8) -> [Fault; 7] {
    [
        fails(1, rule),
        clashes(2, 1, 1, 0),
        clashes(3, 1, 1, 0),
        clashes(4, 3, 1, 2),
        clashes(5, 3, 1, 2),
        clashes(6, 1, 1, 0),
        clashes(7, 1, 1, 0),
    ]
}

#[test]
fn faults_of_spoiled_tables(rt: HostRuntime) -> Result<(), Fail> {
    let alloc = rt.alloc();
    // the edges of label 1 exchanged
    let turned = faults(alloc, &SQUARE, 24, 26, &[1, 0])?;
    assert!(rt; turned.as_slice() == of_label_1(4).as_slice());
    // label 1 empty
    let empty = faults(alloc, &SQUARE, 20, 26, &[0; 4])?;
    assert!(rt; empty.as_slice() == of_label_1(1).as_slice());
    // label 11 empty: of the labels with its signs in facet 0, 1, 3 and 9 have the faces that correspond
    let of_label_11 = [
        clashes(2, 1, 11, 0),
        clashes(3, 1, 11, 0),
        clashes(6, 1, 11, 0),
        clashes(7, 1, 11, 0),
        clashes(10, 2, 11, 3),
        fails(11, 1),
        clashes(14, 2, 11, 3),
    ];
    let later = faults(alloc, &SQUARE, 84, 90, &[0; 4])?;
    assert!(rt; later.as_slice() == of_label_11.as_slice());
    // a tuple of label 3 twice
    let twice = [0, 0, 0, 3, 1, 4, 2, 1, 3, 4, 1, 3, 4];
    let of_label_3 = [
        clashes(1, 3, 3, 0),
        fails(3, 3),
        clashes(6, 0, 3, 3),
        clashes(7, 0, 3, 3),
        clashes(9, 3, 3, 0),
    ];
    let tetrahedron = faults(alloc, &TETRAHEDRON, 34, 44, &twice)?;
    assert!(rt; tetrahedron.as_slice() == of_label_3.as_slice());
    assert!(rt; faults(alloc, &TETRAHEDRON, 0, 0, &[])?.is_empty());
    Ok(())
}

#[test]
fn lines_of_faults(rt: HostRuntime) -> Result<(), Fail> {
    let rule = fault_text(&fails(65535, 4));
    assert_eq!(rt; rule.as_str(), "label 65535 rule 4\n");
    let clash = fault_text(&clashes(201, 3, 60, 2));
    assert_eq!(rt;
        clash.as_str(),
        "label 201 rule 6 facet 3 against label 60 facet 2\n"
    );
    Ok(())
}
