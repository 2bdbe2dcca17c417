//! No call follows a refusal that is known.

use super::*;

const GZIP: &str = "NRRD0001\ntype: uint8\ndimension: 2\nsizes: 2 2\nencoding: gzip\n\n";

const LARGE: &str = "NRRD0001\ntype: uint8\ndimension: 2\nsizes: 16384 16384\nencoding: raw\n\n";

// The calls for the table's file, of 112 bytes: to begin it, to take each byte, and to see its end.
const TABLE: usize = 1 + 112 + 1;

// A table that is not accepted.
fn refused_table() -> Case<'static> {
    Case {
        table: [&SQUARE[..24], &[1, 0], &SQUARE[26..]],
        ..refuses(
            WORDS,
            HEADER,
            &SAMPLES,
            Status::TableRefused { label: 1, rule: 4 },
            "table refused: label 1 rule 4\n",
        )
    }
}

// Bytes of a grid's file, and the cause that they have.
fn grid_form<'a>(header: &'a str, samples: &'a [u8], cause: GridCause, line: &'a str) -> Case<'a> {
    refuses(WORDS, header, samples, Status::GridForm(cause), line)
}

// How many calls are made, where each gives one byte, and the refusal.
fn decided() -> [(usize, Case<'static>); 7] {
    let unfit = Status::Unfit { table: 2, grid: 3 };
    let large = Status::GridLarge(268435456);
    [
        (TABLE, refused_table()),
        (
            TABLE + 2,
            grid_form("nrrd", &SAMPLES, GridCause::Magic, "grid form: magic\n"),
        ),
        (
            TABLE + 1 + GZIP.len(),
            grid_form(
                GZIP,
                &SAMPLES,
                GridCause::Encoding(5),
                "grid form: encoding 5\n",
            ),
        ),
        (
            TABLE + 1 + SCANNED.len(),
            refuses(WORDS, SCANNED, &SAMPLES, unfit, "unfit: table 2 grid 3\n"),
        ),
        (
            TABLE + 1 + LARGE.len(),
            refuses(WORDS, LARGE, &SAMPLES, large, "grid large: 268435456\n"),
        ),
        (
            TABLE + 1 + HEADER.len() + 4,
            grid_form(
                HEADER,
                &[10, 0, 0],
                GridCause::DataShort(3),
                "grid form: short 3\n",
            ),
        ),
        (
            TABLE + 1 + HEADER.len() + 5,
            grid_form(
                HEADER,
                &[10, 0, 0, 0, 0],
                GridCause::Trailing,
                "grid form: trailing\n",
            ),
        ),
    ]
}

// The call that brings the last byte may fail; where each call behind it does, the refusal stands.
#[test]
fn no_call_follows_a_refusal(rt: HostRuntime) -> Result<(), Fail> {
    let alloc = rt.alloc();
    for (number, (calls, case)) in decided().iter().enumerate() {
        let calls = *calls as u64;
        let mut shelf = failing_shelf(alloc, case, 1, &[calls.wrapping_sub(1)])?;
        let fault = Status::ShelfFault(1);
        check_over(
            &rt,
            alloc,
            number,
            case,
            &mut shelf,
            fault,
            "shelf fault: 1\n",
        )?;
        let later = [calls, calls.wrapping_add(1), calls.wrapping_add(2)];
        let mut shelf = failing_shelf(alloc, case, 1, &later)?;
        check_over(&rt, alloc, number, case, &mut shelf, case.status, case.line)?;
    }
    Ok(())
}
