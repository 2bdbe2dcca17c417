//! Tables that are put in version 2.

use super::*;

const CONVERT: &str = "convert table=table.tab";

const fn spoils<'a>(table: [&'a [u8]; 3], fault: (u64, TableCause), line: &'a str) -> Case<'a> {
    let (place, cause) = fault;
    Case {
        table,
        ..refuses(
            CONVERT,
            "",
            &[],
            Status::TableForm(TableForm::Fault { place, cause }),
            line,
        )
    }
}

// Puts the table of the file that these pieces make, and compares what was put.
fn check_put(
    rt: &(impl Abort + Threads + Sync),
    alloc: Global,
    table: [&[u8]; 3],
    expected: &[u8],
) -> Result<(), Fail> {
    let case = Case {
        table,
        ..refuses(CONVERT, "", &[], Status::Done, "")
    };
    let words = words_of(alloc, case.words)?;
    let mut shelf = shelf_of(alloc, &case)?;
    let mut out = MemSink::new(alloc, 300, Vec::new(alloc), 64)?;
    let mut err = MemSink::new(alloc, 100, Vec::new(alloc), 64)?;
    let status = run_freely(rt, alloc, words.as_slice(), &mut shelf, &mut out, &mut err);
    assert_eq!(rt; status, Status::Done);
    assert_eq!(rt; out.bytes(), expected);
    Ok(())
}

#[test]
fn tables_are_put_in_version_2(rt: HostRuntime) -> Result<(), Fail> {
    check_put(&rt, rt.alloc(), [&SQUARE, &[], &[]], &SQUARE2)?;
    check_put(&rt, rt.alloc(), [&SQUARE2, &[], &[]], &SQUARE2)?;
    // a table that is not accepted: the segment of label 1 is turned the wrong way
    let mut turned = SQUARE2;
    turned[192] = 1;
    turned[193] = 0;
    check_put(
        &rt,
        rt.alloc(),
        [&SQUARE[..24], &[1, 0], &SQUARE[26..]],
        &turned,
    )
}

#[test]
fn spoiled_tables_are_not_put(rt: HostRuntime) -> Result<(), Fail> {
    let index = TableCause::Index;
    let cases = [
        spoils(
            [&SQUARE2[..19], &[17], &SQUARE2[20..]],
            (16, index),
            "table form: index 16\n",
        ),
        spoils(
            [&SQUARE2[..19], &[15], &SQUARE2[20..]],
            (24, index),
            "table form: index 24\n",
        ),
        spoils(
            [&SQUARE2[..191], &[2], &SQUARE2[192..]],
            (188, TableCause::Count),
            "table form: count 188\n",
        ),
        spoils(
            [&SQUARE2[..192], &[9], &SQUARE2[193..]],
            (192, TableCause::EdgeNumber),
            "table form: edge number 192\n",
        ),
        spoils(
            [&SQUARE2[..275], &[], &[]],
            (275, TableCause::Short),
            "table form: short 275\n",
        ),
        spoils(
            [&SQUARE2, &[0], &[]],
            (276, TableCause::Extra),
            "table form: extra 276\n",
        ),
    ];
    for (number, case) in cases.iter().enumerate() {
        check(&rt, rt.alloc(), number, case)?;
    }
    Ok(())
}
