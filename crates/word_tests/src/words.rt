use iso_model::Kind;
use iso_words::{Command, WrongWord, parse};
use std::alloc::{AllocError, Global};
use std::process::Abort;
use std::test::Fail;

// The words of a line, between single spaces; an empty line has none.
fn words_of(alloc: Global, line: &str) -> Result<Vec<String>, AllocError> {
    let mut words = Vec::new(alloc);
    if !line.is_empty() {
        for word in line.split(' ') {
            words.push(String::from_str(alloc, word)?)?;
        }
    }
    Ok(words)
}

const fn generate<'a>(kind: Kind, dim: u8) -> Command<'a> {
    Command::Generate { kind, dim }
}

const fn check(table: &str) -> Command<'_> {
    Command::Check { table }
}

const fn extract<'a>(table: &'a str, grid: &'a str, iso: i64) -> Command<'a> {
    Command::Extract { table, grid, iso }
}

const fn demo<'a>(kind: Kind, dim: u8, size: u64, seed: u32) -> Command<'a> {
    Command::Demo {
        kind,
        dim,
        size,
        seed,
    }
}

const fn convert(table: &str) -> Command<'_> {
    Command::Convert { table }
}

const fn audit(mesh: &str) -> Command<'_> {
    Command::Audit { mesh }
}

const fn spectrum<'a>(kind: Kind, grid: &'a str, from: i64, to: i64) -> Command<'a> {
    Command::Spectrum {
        kind,
        grid,
        from,
        to,
    }
}

type Row = (&'static str, Command<'static>);

// Tables and meshes that are made, with the keys in each order.
fn generated_words() -> [Row; 18] {
    [
        // each kind and dimension, in both orders of the keys
        ("generate kind=cube dim=2", generate(Kind::Cube, 2)),
        ("generate kind=cube dim=3", generate(Kind::Cube, 3)),
        ("generate kind=cube dim=4", generate(Kind::Cube, 4)),
        ("generate kind=simplex dim=2", generate(Kind::Simplex, 2)),
        ("generate kind=simplex dim=3", generate(Kind::Simplex, 3)),
        ("generate kind=simplex dim=4", generate(Kind::Simplex, 4)),
        ("generate kind=pyramid dim=3", generate(Kind::Pyramid, 3)),
        ("generate dim=2 kind=cube", generate(Kind::Cube, 2)),
        ("generate dim=3 kind=cube", generate(Kind::Cube, 3)),
        ("generate dim=4 kind=cube", generate(Kind::Cube, 4)),
        ("generate dim=2 kind=simplex", generate(Kind::Simplex, 2)),
        ("generate dim=3 kind=simplex", generate(Kind::Simplex, 3)),
        ("generate dim=4 kind=simplex", generate(Kind::Simplex, 4)),
        ("generate dim=3 kind=pyramid", generate(Kind::Pyramid, 3)),
        // the greatest sizes and the greatest seed, with the keys in other orders
        (
            "demo kind=cube dim=2 size=256 seed=0",
            demo(Kind::Cube, 2, 256, 0),
        ),
        (
            "demo size=64 seed=7 dim=3 kind=simplex",
            demo(Kind::Simplex, 3, 64, 7),
        ),
        (
            "demo seed=4294967295 size=16 kind=cube dim=4",
            demo(Kind::Cube, 4, 16, 4294967295),
        ),
        (
            "demo size=64 kind=pyramid dim=3 seed=1",
            demo(Kind::Pyramid, 3, 64, 1),
        ),
    ]
}

// Names of files.
fn named_words() -> [Row; 7] {
    [
        ("check table=a", check("a")),
        ("check table==x=y", check("=x=y")),
        ("check table=A", check("A")),
        ("check table=größe.tab", check("größe.tab")),
        ("convert table=a", convert("a")),
        ("convert table=table=b", convert("table=b")),
        ("audit mesh=a.off", audit("a.off")),
    ]
}

// Extractions: the keys in each order, and isovalues.
fn extracted_words() -> [Row; 12] {
    [
        // each order of the keys
        ("extract table=a grid=b iso=1", extract("a", "b", 1)),
        ("extract table=a iso=1 grid=b", extract("a", "b", 1)),
        ("extract grid=b table=a iso=1", extract("a", "b", 1)),
        ("extract grid=b iso=1 table=a", extract("a", "b", 1)),
        ("extract iso=1 table=a grid=b", extract("a", "b", 1)),
        ("extract iso=1 grid=b table=a", extract("a", "b", 1)),
        // isovalues
        ("extract table=a grid=b iso=0", extract("a", "b", 0)),
        ("extract table=a grid=b iso=-5", extract("a", "b", -5)),
        ("extract table=a grid=b iso=-10", extract("a", "b", -10)),
        (
            "extract table=a grid=b iso=1099511627776",
            extract("a", "b", 1099511627776),
        ),
        (
            "extract table=a grid=b iso=-1099511627776",
            extract("a", "b", -1099511627776),
        ),
        (
            "extract table=iso=1 grid=table=a iso=2",
            extract("iso=1", "table=a", 2),
        ),
    ]
}

// Ranges: of many isovalues, of one, of the greatest number, and at both ends.
fn counted_words() -> [Row; 5] {
    [
        (
            "spectrum kind=cube grid=a from=0 to=255",
            spectrum(Kind::Cube, "a", 0, 255),
        ),
        (
            "spectrum to=-3 from=-3 grid=from=1 kind=pyramid",
            spectrum(Kind::Pyramid, "from=1", -3, -3),
        ),
        (
            "spectrum grid=a to=32767 kind=simplex from=-32768",
            spectrum(Kind::Simplex, "a", -32768, 32767),
        ),
        (
            "spectrum from=1099511562241 to=1099511627776 kind=cube grid=a",
            spectrum(Kind::Cube, "a", 1099511562241, 1099511627776),
        ),
        (
            "spectrum to=-1099511562241 from=-1099511627776 kind=cube grid=a",
            spectrum(Kind::Cube, "a", -1099511627776, -1099511562241),
        ),
    ]
}

fn check_rows(rt: &impl Abort, alloc: Global, rows: &[Row]) -> Result<(), Fail> {
    for (line, command) in rows {
        let words = words_of(alloc, line)?;
        assert_eq!(rt; parse(words.as_slice()), Ok(*command), "at {line}");
    }
    Ok(())
}

#[test]
fn right_words_say_their_command(rt: HostRuntime) -> Result<(), Fail> {
    check_rows(&rt, rt.alloc(), &generated_words())?;
    check_rows(&rt, rt.alloc(), &named_words())?;
    check_rows(&rt, rt.alloc(), &extracted_words())?;
    check_rows(&rt, rt.alloc(), &counted_words())
}

// Lines, and the number of the first word that is wrong.
const WRONG_WORDS: [(&str, u32); 97] = [
    // commands
    ("", 1),
    (" ", 1),
    ("table=a", 1),
    ("table=a check", 1),
    ("Check table=a", 1),
    ("CHECK", 1),
    ("check=a table=a", 1),
    ("Generate kind=cube dim=2", 1),
    // a key is missing
    ("generate", 2),
    ("generate kind=cube", 3),
    ("generate kind=pyramid", 3),
    ("check", 2),
    ("extract", 2),
    ("extract iso=1", 3),
    ("extract table=a grid=b", 4),
    ("extract table=a iso=1", 4),
    ("extract grid=b iso=1", 4),
    // a key that stood before
    ("generate kind=cube kind=cube", 3),
    ("generate dim=3 dim=3", 3),
    ("check table=a table=a", 3),
    ("check table=a table=b", 3),
    ("extract table=a table=b grid=c iso=0", 3),
    ("extract grid=a grid=b", 3),
    ("extract iso=1 iso=2", 3),
    ("extract table=a grid=b iso=0 iso=0", 5),
    ("convert", 2),
    ("convert table=a table=b", 3),
    ("audit", 2),
    ("audit mesh=a mesh=a", 3),
    // no key of the command
    ("generate table=a", 2),
    ("generate kind=cube dim=3 x", 4),
    ("generate dim=4 kind=cube iso=0", 4),
    ("check kind=cube", 2),
    ("check ", 2),
    ("check table", 2),
    ("check =a", 2),
    ("check Table=a", 2),
    ("check grid=a", 2),
    ("check table=a grid=b", 3),
    ("extract TABLE=a", 2),
    ("extract table=a blank=0", 3),
    ("extract table=a grid=b Iso=1", 4),
    ("extract table=a grid=b iso", 4),
    ("extract table=a grid=b iso=1 x", 5),
    ("extract table=a grid=b iso=1 x y", 5),
    ("convert grid=a", 2),
    ("convert table=a table2=b", 3),
    ("audit table=a", 2),
    // no right value
    ("generate kind=Cube", 2),
    ("generate kind=cube dim=1", 3),
    ("generate dim=5", 2),
    ("generate dim=02", 2),
    ("generate dim=+3", 2),
    ("generate dim= ", 2),
    // a kind and a dimension that do not go together
    ("generate kind=pyramid dim=2", 3),
    ("generate dim=2 kind=pyramid", 3),
    ("generate dim=4 kind=pyramid", 3),
    // a size that goes with no kind and dimension that were given, or with none at all
    ("demo kind=cube dim=2 size=0 seed=5", 4),
    ("demo size=65 kind=pyramid", 3),
    ("demo kind=pyramid size=65", 3),
    ("demo size=256 seed=0 dim=3", 4),
    ("demo size=257", 2),
    ("demo kind=cube dim=4 size=17", 4),
    ("demo seed=4294967296", 2),
    ("demo seed=-1", 2),
    ("demo kind=cube dim=2 size=2", 5),
    // a file name or an isovalue
    ("check table=", 2),
    ("convert table=", 2),
    ("audit mesh=", 2),
    ("extract table=a grid= iso=05", 3),
    ("extract table=a grid=b iso=05", 4),
    ("extract table=a grid=b iso=00", 4),
    ("extract table=a grid=b iso=-05", 4),
    ("extract table=a grid=b iso=+5", 4),
    ("extract table=a grid=b iso=-0", 4),
    ("extract table=a grid=b iso=", 4),
    ("extract table=a grid=b iso=-", 4),
    ("extract table=a grid=b iso=--5", 4),
    ("extract table=a grid=b iso=5a", 4),
    ("extract table=a grid=b iso=5=5", 4),
    ("extract table=a grid=b iso=1099511627777", 4),
    ("extract table=a grid=b iso=-1099511627777", 4),
    ("extract table=a grid=b iso=9223372036854775808", 4),
    (
        "extract table=a grid=b iso=123456789012345678901234567890123456789012345678901234567890",
        4,
    ),
    ("extract iso=05 x x x x x x x", 2),
    // a range that falls, that has too many isovalues, or that lacks an end
    ("spectrum kind=cube grid=g from=5 to=4", 5),
    ("spectrum to=4 from=5", 3),
    ("spectrum from=0 to=65536", 3),
    ("spectrum to=32767 grid=a from=-32769", 4),
    ("spectrum to=-1099511627777", 2),
    ("spectrum from=1099511627777", 2),
    ("spectrum from=-1099511627776 to=1099511627776", 3),
    ("spectrum kind=cube grid=g to=4", 5),
    ("spectrum kind=cube grid=g from=4", 5),
    ("spectrum from=4 from=4", 3),
    ("spectrum kind=cube dim=3", 3),
    ("spectrum grid=", 2),
];

#[test]
fn wrong_words_are_counted(rt: HostRuntime) -> Result<(), Fail> {
    for (line, place) in WRONG_WORDS {
        let words = words_of(rt.alloc(), line)?;
        assert_eq!(rt; parse(words.as_slice()), Err(WrongWord(place)), "at {line}");
    }
    Ok(())
}
