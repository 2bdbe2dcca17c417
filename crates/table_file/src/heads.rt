//! The first sixteen bytes of a table file, which name its version and the kind and dimension of the table.

ghost use Rattle.std.specs.Prelude.{◌≡◌, ◌↔◌, ℕ, ◌+◌, ◌<◌, ◌≤◌, length, take, slice_index, slice_index_or, IfOk, IfErr};
ghost use Rattle.iso_model.specs.Cells.{HasDimension, corner_count, edge_count, label_count};
ghost use Rattle.iso_formats.specs.TableFile.{head_bytes, kind_byte};
ghost use Rattle.iso_formats.specs.TableFile2.{HasHeadOf};
ghost use Rattle.table_file.specs.Heads.{IsAgreement, StopsInHead, rows, version_number};
ghost use Rattle.table_file.specs.declared.heads.Version.TheVariants.{Two};

use iso_model::Kind;

/// The versions of table files.
#[derive(Clone, Copy, Debug, PartialEq, Eq)]
pub(crate) enum Version {
    One,
    Two,
}

/// The number of corners of a cell.
fn corners(kind: Kind, dimension: u8) -> u8
    requires { HasDimension kind dimension }
    ensures { result ≡ corner_count kind dimension }
{
    match kind {
        Kind::Cube => 1 << dimension,
        Kind::Simplex => dimension + 1,
        Kind::Pyramid => 5,
    }
}

/// The number of edges of a cell.
pub(crate) fn edges(kind: Kind, dimension: u8) -> u8
    requires { HasDimension kind dimension }
    ensures { result ≡ edge_count kind dimension }
{
    match kind {
        Kind::Cube => dimension << (dimension - 1),
        Kind::Simplex => dimension * (dimension + 1) / 2,
        Kind::Pyramid => 8,
    }
}

/// The number of labels of a cell.
pub(crate) fn labels(kind: Kind, dimension: u8) -> u32
    requires { HasDimension kind dimension }
    ensures { result ≡ label_count kind dimension }
{
    1 << corners(kind, dimension)
}

/// The head of the files of a version that hold tables of a kind and a dimension.
pub(crate) fn head(version: Version, kind: Kind, dimension: u8) -> [u8; 16]
    requires { HasDimension kind dimension }
    ensures { result ≡ head_bytes (version_number version) kind dimension }
{
    let version_byte = match version {
        Version::One => b'1',
        Version::Two => b'2',
    };
    let kind_byte = match kind {
        Kind::Cube => 0,
        Kind::Simplex => 1,
        Kind::Pyramid => 2,
    };
    let [first, second, third, fourth] = labels(kind, dimension).to_be_bytes();
    [
        b'H',
        b'U',
        b'L',
        b'L',
        b'T',
        b'A',
        b'B',
        version_byte,
        kind_byte,
        dimension,
        corners(kind, dimension),
        edges(kind, dimension),
        first,
        second,
        third,
        fourth,
    ]
}

/// How many places, from the first on, agree in both.
fn agreement(bytes: &[u8], head: &[u8; 16]) -> usize
    ensures { IsAgreement bytes.now head.now result }
{
    let mut place = 0;
    while place < 16 && place < bytes.len() && bytes[place] == head[place] {
        place += 1;
    }
    place
}

/// The seven kinds of table: the shape of the cells, and their dimension.
const ROWS: [(Kind, u8); 7] = [
    (Kind::Cube, 2),
    (Kind::Cube, 3),
    (Kind::Cube, 4),
    (Kind::Simplex, 2),
    (Kind::Simplex, 3),
    (Kind::Simplex, 4),
    (Kind::Pyramid, 3),
];

fn row(number: usize) -> (Kind, u8)
    requires { number < length rows }
    ensures row { slice_index_or rows number result ≡ result }
    ensures fits { HasDimension result.0 result.1 }
{
    ROWS[number]
}

/// The version that the eighth byte names; where it names none, the first.
pub(crate) fn version_of(bytes: &[u8]) -> Version
    ensures { (result ≡ Two) ↔ ((7 < length bytes.now) × (slice_index bytes.now 7 ≡ 50)) }
{
    if bytes.len() > 7 && bytes[7] == b'2' {
        Version::Two
    } else {
        Version::One
    }
}

/// The kind and the dimension of the head with which bytes of a version begin, or the first place at which no head of
/// this version goes on.
pub(crate) fn read_head(version: Version, bytes: &[u8]) -> Result<(Kind, u8), usize>
    ensures head { IfOk result (λ row. HasHeadOf (version_number version) bytes.now row.0 row.1) }
    ensures fault { IfErr result (StopsInHead (version_number version) bytes.now) }
{
    let mut reached = 0;
    for number in 0..ROWS.len() {
        let (kind, dimension) = row(number);
        let places = agreement(bytes, &head(version, kind, dimension));
        if places == 16 {
            return Ok((kind, dimension));
        }
        if reached < places {
            reached = places;
        }
    }
    Err(reached)
}
