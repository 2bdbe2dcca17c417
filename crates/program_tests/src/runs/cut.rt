//! Files that end too early, and an output that fails at each of its bytes.

use super::*;

// The bytes of a header and its samples.
fn grid_bytes(alloc: Global) -> Result<Vec<u8>, AllocError> {
    let mut bytes = Vec::from_slice(alloc, HEADER.as_bytes())?;
    bytes.extend_from_slice(&SAMPLES)?;
    Ok(bytes)
}

// What is said of the grid of which only so many bytes are there.
fn cause_of(count: usize) -> (GridCause, &'static str) {
    match count {
        0..=8 => (GridCause::Magic, "grid form: magic\n"),
        9..=59 => (GridCause::HeaderEnd, "grid form: header end\n"),
        60 => (GridCause::DataShort(0), "grid form: short 0\n"),
        61 => (GridCause::DataShort(1), "grid form: short 1\n"),
        62 => (GridCause::DataShort(2), "grid form: short 2\n"),
        _ => (GridCause::DataShort(3), "grid form: short 3\n"),
    }
}

#[test]
fn grids_that_are_cut_off(rt: HostRuntime) -> Result<(), Fail> {
    let alloc = rt.alloc();
    let bytes = grid_bytes(alloc)?;
    for count in 0..64usize {
        let (cause, line) = cause_of(count);
        let cut = bytes.get(..count).unwrap_or(&[]);
        let case = refuses(WORDS, "", cut, Status::GridForm(cause), line);
        check(&rt, alloc, count, &case)?;
    }
    Ok(())
}

#[test]
fn tables_that_are_cut_off(rt: HostRuntime) -> Result<(), Fail> {
    let alloc = rt.alloc();
    for count in 0..112usize {
        let line = format!(in alloc; "table form: short {count}\n")?;
        let status = Status::TableForm(TableForm::Fault {
            place: count as u64,
            cause: TableCause::Short,
        });
        let case = Case {
            table: [SQUARE.get(..count).unwrap_or(&[]), &[], &[]],
            ..refuses("check table=table.tab", "", &[], status, line.as_str())
        };
        check(&rt, alloc, count, &case)?;
    }
    Ok(())
}

// The text has 55 bytes, of which each is put by a call of its own.
#[test]
fn each_call_of_the_output_may_fail(rt: HostRuntime) -> Result<(), Fail> {
    let alloc = rt.alloc();
    for number in 0..55u64 {
        let fails = [number];
        let case = Case {
            out_step: 1,
            out_fails: &fails,
            out: FIRST.get(..number as usize).unwrap_or(""),
            ..refuses(
                WORDS,
                HEADER,
                &SAMPLES,
                Status::WriteFault(1),
                "write fault: 1\n",
            )
        };
        check(&rt, alloc, number as usize, &case)?;
    }
    let case = Case {
        out_step: 1,
        out_fails: &[55],
        ..extracts(HEADER, &SAMPLES, FIRST)
    };
    check(&rt, alloc, 55, &case)
}
