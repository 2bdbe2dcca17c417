//! Spectra.

use super::*;

const CUBED: &str = "NRRD0001\ntype: uint8\ndimension: 3\nsizes: 2 2 2\nencoding: raw\n\n";

const ONE: [u8; 8] = [8, 0, 0, 0, 0, 0, 0, 0];

const fn counts<'a>(words: &'a str, header: &'a str, samples: &'a [u8], out: &'a str) -> Case<'a> {
    Case {
        out,
        ..refuses(words, header, samples, Status::Done, "")
    }
}

#[test]
fn vertices_are_counted(rt: HostRuntime) -> Result<(), Fail> {
    let cases = [
        counts(
            "spectrum kind=cube grid=grid.nrrd from=0 to=2",
            HEADER,
            &SAMPLES,
            "0 0\n1 2\n2 2\n",
        ),
        counts(
            "spectrum kind=cube grid=grid.nrrd from=10 to=11",
            HEADER,
            &SAMPLES,
            "10 2\n11 0\n",
        ),
        counts(
            "spectrum to=5 from=5 grid=grid.nrrd kind=simplex",
            HEADER,
            &SAMPLES,
            "5 3\n",
        ),
        // at 1 the centre is positive
        counts(
            "spectrum kind=pyramid grid=grid.nrrd from=1 to=2",
            CUBED,
            &ONE,
            "1 10\n2 4\n",
        ),
        counts(
            "spectrum kind=cube grid=grid.nrrd from=1 to=1",
            CUBED,
            &ONE,
            "1 3\n",
        ),
    ];
    check_all(&rt, rt.alloc(), &cases)
}

// Of grids without cells, of samples that are greatest or least, and at the least isovalue.
#[test]
fn extremes_are_counted(rt: HostRuntime) -> Result<(), Fail> {
    let cases = [
        // without cubes there is no edge
        counts(
            "spectrum kind=cube grid=grid.nrrd from=-1 to=0",
            "NRRD0001\ntype: int8\ndimension: 2\nsizes: 1 2\nencoding: raw\n\n",
            &[5, 251],
            "-1 0\n0 0\n",
        ),
        // the least and the greatest sample of 32 bits, one after the other
        counts(
            "spectrum kind=cube grid=grid.nrrd from=-2147483648 to=-2147483647",
            "NRRD0001\ntype: int32\ndimension: 2\nsizes: 2 2\nendian: little\nencoding: raw\n\n",
            &[
                0, 0, 0, 128, 255, 255, 255, 127, 0, 0, 0, 128, 255, 255, 255, 127,
            ],
            "-2147483648 0\n-2147483647 2\n",
        ),
        counts(
            "spectrum kind=cube grid=grid.nrrd from=4294967295 to=4294967296",
            "NRRD0001\ntype: uint32\ndimension: 2\nsizes: 2 2\nendian: little\nencoding: raw\n\n",
            &[
                0, 0, 0, 0, 255, 255, 255, 255, 0, 0, 0, 0, 255, 255, 255, 255,
            ],
            "4294967295 2\n4294967296 0\n",
        ),
        counts(
            "spectrum kind=cube grid=grid.nrrd from=-1099511627776 to=-1099511627776",
            HEADER,
            &SAMPLES,
            "-1099511627776 0\n",
        ),
    ];
    check_all(&rt, rt.alloc(), &cases)
}

// Of words and of the grid, in the order in which they are refused.
#[test]
fn spectra_are_refused(rt: HostRuntime) -> Result<(), Fail> {
    let flat = "spectrum kind=pyramid grid=grid.nrrd from=0 to=0";
    let unfit = Status::Unfit { table: 3, grid: 2 };
    let cases = [
        refuses(
            "spectrum kind=cube grid=g from=5 to=4",
            HEADER,
            &SAMPLES,
            Status::Usage(5),
            "usage: word 5\n",
        ),
        refuses(flat, HEADER, &SAMPLES, unfit, "unfit: table 3 grid 2\n"),
        // before a sample is taken
        refuses(flat, HEADER, &[], unfit, "unfit: table 3 grid 2\n"),
        refuses(
            "spectrum kind=simplex grid=grid.nrrd from=0 to=0",
            HEADER,
            &SAMPLES[..3],
            Status::GridForm(GridCause::DataShort(3)),
            "grid form: short 3\n",
        ),
        refuses(
            "spectrum kind=cube grid=table.tab from=0 to=0",
            HEADER,
            &SAMPLES,
            Status::GridForm(GridCause::Magic),
            "grid form: magic\n",
        ),
        refuses(
            "spectrum kind=cube grid=none from=0 to=0",
            HEADER,
            &SAMPLES,
            Status::ShelfFault(1),
            "shelf fault: 1\n",
        ),
        Case {
            out_step: 1,
            out_fails: &[3],
            out: "0 0",
            ..refuses(
                "spectrum kind=cube grid=grid.nrrd from=0 to=2",
                HEADER,
                &SAMPLES,
                Status::WriteFault(1),
                "write fault: 1\n",
            )
        },
    ];
    check_all(&rt, rt.alloc(), &cases)
}

// What a run puts that ends well, over these bytes of a table and this grid.
fn put_by<'a>(
    rt: &(impl Abort + Threads + Sync),
    alloc: Global,
    words: &'a str,
    table: &'a [u8],
    header: &'a str,
    samples: &'a [u8],
) -> Result<MemSink, Fail> {
    let case = Case {
        table: [table, &[], &[]],
        shelf_step: 4096,
        ..refuses(words, header, samples, Status::Done, "")
    };
    let words = words_of(alloc, case.words)?;
    let mut shelf = shelf_of(alloc, &case)?;
    let mut out = MemSink::new(alloc, 4_000_000, Vec::new(alloc), 4096)?;
    let mut err = MemSink::new(alloc, 100, Vec::new(alloc), 64)?;
    let status = run_freely(rt, alloc, words.as_slice(), &mut shelf, &mut out, &mut err);
    assert_eq!(rt; status, Status::Done);
    Ok(out)
}

// The first word of the line of a mesh file that has the number of its vertices.
fn vertices_said(text: &[u8]) -> &[u8] {
    let before = if text.starts_with(b"nOFF") { 2 } else { 1 };
    let line = text.split(|b| *b == b'\n').nth(before).unwrap_or(&[]);
    line.split(|b| *b == b' ').next().unwrap_or(&[])
}

// Compares the spectrum of a grid with the meshes that are put at each of its isovalues.
fn check_grid(
    rt: &(impl Abort + Threads + Sync),
    alloc: Global,
    kind: &str,
    dim: u8,
    sizes: &str,
    samples: &[u8],
) -> Result<(), Fail> {
    let words = format!(in alloc; "generate kind={kind} dim={dim}")?;
    let table = put_by(rt, alloc, words.as_str(), &[], "", &[])?;
    let header = format!(in alloc;
        "NRRD0001\ntype: uint8\ndimension: {dim}\nsizes: {sizes}\nencoding: raw\n\n"
    )?;
    let header = header.as_str();
    let mut expected = Vec::new(alloc);
    for iso in 0..5u8 {
        let words = format!(in alloc; "extract table=table.tab grid=grid.nrrd iso={iso}")?;
        let mesh = put_by(rt, alloc, words.as_str(), table.bytes(), header, samples)?;
        expected.extend_from_slice(format!(in alloc; "{iso} ")?.as_bytes())?;
        expected.extend_from_slice(vertices_said(mesh.bytes()))?;
        expected.extend_from_slice(b"\n")?;
    }
    let words = format!(in alloc; "spectrum kind={kind} grid=grid.nrrd from=0 to=4")?;
    let spectrum = put_by(rt, alloc, words.as_str(), &[], header, samples)?;
    assert_eq!(rt; spectrum.bytes(), expected.as_slice(), "{kind} {sizes}");
    Ok(())
}

// Each kind of cells, in grids of random samples below 5.
#[test]
fn spectra_agree_with_meshes(rt: HostRuntime) -> Result<(), Fail> {
    let mut samples = [0u8; 36];
    let mut state = 1u32;
    for (kind, dim, sizes, count) in [
        ("cube", 2, "5 4", 20usize),
        ("cube", 2, "2 9", 18),
        ("simplex", 2, "4 5", 20),
        ("simplex", 2, "9 2", 18),
        ("cube", 3, "3 4 3", 36),
        ("cube", 3, "2 2 5", 20),
        ("simplex", 3, "4 3 3", 36),
        ("simplex", 3, "5 2 3", 30),
        ("pyramid", 3, "3 3 4", 36),
        ("pyramid", 3, "2 5 3", 30),
        ("simplex", 4, "3 2 3 2", 36),
        ("cube", 4, "2 3 2 3", 36),
    ] {
        for sample in samples.iter_mut() {
            state = state.wrapping_mul(1664525).wrapping_add(1013904223);
            *sample = (state >> 24) as u8 % 5;
        }
        let samples = samples.get(..count).unwrap_or(&[]);
        check_grid(&rt, rt.alloc(), kind, dim, sizes, samples)?;
    }
    Ok(())
}
