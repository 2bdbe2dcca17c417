//! Demonstrations.

use super::*;

const fn says<'a>(words: &'a str, out: &'a str) -> Case<'a> {
    Case {
        words,
        out,
        ..refuses(words, "", &[], Status::Done, "")
    }
}

// The samples of the first grid are 60 71 209 170, and a grid of one sample has no cells. The numbers of the third were
// found by a program that was written apart, from the definitions alone.
#[test]
fn numbers_of_meshes_are_said(rt: HostRuntime) -> Result<(), Fail> {
    let cases = [
        says(
            "demo kind=cube dim=2 size=2 seed=0",
            "vertices 2\nsimplices 1\nboundary 2\n",
        ),
        says(
            "demo kind=cube dim=2 size=1 seed=5",
            "vertices 0\nsimplices 0\nboundary 0\n",
        ),
        says(
            "demo kind=cube dim=3 size=32 seed=7",
            "vertices 47769\nsimplices 97290\nboundary 5748\n",
        ),
        refuses(
            "demo kind=cube dim=2 size=0 seed=5",
            "",
            &[],
            Status::Usage(4),
            "usage: word 4\n",
        ),
        Case {
            out_step: 1,
            out_fails: &[3],
            status: Status::WriteFault(1),
            line: "write fault: 1\n",
            ..says("demo kind=cube dim=2 size=2 seed=0", "ver")
        },
    ];
    check_all(&rt, rt.alloc(), &cases)
}

// Each kind and dimension once, over a grid without cells.
#[test]
fn each_kind_is_demonstrated(rt: HostRuntime) -> Result<(), Fail> {
    for kind in [
        "kind=simplex dim=2",
        "kind=simplex dim=3",
        "kind=pyramid dim=3",
        "kind=simplex dim=4",
    ] {
        let line = format!(in rt.alloc(); "demo {kind} size=1 seed=4294967295")?;
        check(
            &rt,
            rt.alloc(),
            0,
            &says(line.as_str(), "vertices 0\nsimplices 0\nboundary 0\n"),
        )?;
    }
    Ok(())
}
