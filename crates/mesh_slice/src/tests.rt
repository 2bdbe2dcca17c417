//! Cuts of small meshes.

ghost use Rattle.cut_laws.specs.Cuts.{IsModerate};

use crate::cut_mesh;
use mesh_laws::Mesh;
use std::alloc::Global;
use std::test::Fail;
use table_check::{OrderedChecked, certify_ordered};
use table_file::{AnyTable, Kind, decode};
use worked_tables::TETRAHEDRON;

/// The table of these bytes.
fn table_of(alloc: Global, bytes: &[u8; 140]) -> Result<OrderedChecked, Fail> {
    let AnyTable::T3(table) = decode(alloc, bytes)? else {
        return Err("no table of three dimensions".into());
    };
    if table.kind() != Kind::Simplex {
        return Err("no table of the simplex".into());
    }
    match certify_ordered(alloc, table) {
        Ok(checked) => Ok(checked),
        Err(_) => Err("not certified".into()),
    }
}

/// What is cut of one tetrahedron at a time.
fn moment_at(alloc: Global, time: i64) -> Result<Mesh<3>, Fail>
    requires { IsModerate time }
{
    let cut = table_of(alloc, &TETRAHEDRON)?;
    let vertices = [
        [500_000, 0, 0, 0],
        [0, 500_000, 0, 0],
        [0, 0, 500_000, 0],
        [0, 0, 0, 500_000],
    ];
    let mesh = Mesh {
        vertices: Vec::from_slice(alloc, &vertices)?,
        simplices: Vec::from_slice(alloc, &[[0, 1, 2, 3]])?,
    };
    Ok(cut_mesh(alloc, &mesh, &cut, time)?)
}

#[test]
fn one_tetrahedron(rt: HostRuntime) -> Result<(), Fail> {
    let alloc = rt.alloc();
    let none = moment_at(alloc, 0)?;
    assert!(rt; none.vertices.is_empty() && none.simplices.is_empty());
    let small = moment_at(alloc, 250_000)?;
    let positions = [[250_000, 0, 0], [0, 250_000, 0], [0, 0, 250_000]];
    assert_eq!(rt; small.vertices.as_slice(), positions.as_slice());
    assert_eq!(rt; small.simplices.as_slice(), [[0, 1, 2]].as_slice());
    // a vertex at the time is late
    let point = moment_at(alloc, 500_000)?;
    assert_eq!(rt; point.vertices.as_slice(), [[0, 0, 0]; 3].as_slice());
    assert_eq!(rt; point.simplices.as_slice(), [[0, 1, 2]].as_slice());
    let none = moment_at(alloc, 500_001)?;
    assert!(rt; none.vertices.is_empty() && none.simplices.is_empty());
    Ok(())
}

/// The table with the other diagonal where the first two corners are late.
fn other_diagonal() -> [u8; 140] {
    let mut bytes = TETRAHEDRON;
    bytes[39] = 3;
    bytes[40] = 2;
    bytes[41] = 2;
    bytes[42] = 3;
    bytes[43] = 4;
    bytes
}

/// What is cut at the time 0 of a tetrahedron whose vertices are as far as can be, by the table of these bytes.
fn far_moment(alloc: Global, bytes: &[u8; 140]) -> Result<Mesh<3>, Fail> {
    let cut = table_of(alloc, bytes)?;
    let vertices = [
        [0, 0, 0, 4503599627370496],
        [7, 0, 0, 1],
        [0, 7, 0, -1],
        [4503599627370496, -4503599627370496, 7, -4503599627370496],
    ];
    let mesh = Mesh {
        vertices: Vec::from_slice(alloc, &vertices)?,
        simplices: Vec::from_slice(alloc, &[[2, 0, 1, 3]])?,
    };
    Ok(cut_mesh(alloc, &mesh, &cut, 0)?)
}

#[test]
fn far_vertices(rt: HostRuntime) -> Result<(), Fail> {
    let alloc = rt.alloc();
    let positions = [
        [0, 6, 0],
        [2251799813685248, -2251799813685248, 3],
        [3, 3, 0],
        [7, -1, 0],
    ];
    let one = far_moment(alloc, &TETRAHEDRON)?;
    assert_eq!(rt; one.vertices.as_slice(), positions.as_slice());
    assert_eq!(rt; one.simplices.as_slice(), [[0, 3, 1], [0, 2, 3]].as_slice());
    let other = far_moment(alloc, &other_diagonal())?;
    assert_eq!(rt; other.vertices.as_slice(), positions.as_slice());
    assert_eq!(rt;
        other.simplices.as_slice(),
        [[0, 2, 1], [1, 2, 3]].as_slice()
    );
    Ok(())
}

/// What is cut at a time of two tetrahedra that share a face.
fn joined_moment(alloc: Global, time: i64) -> Result<Mesh<3>, Fail>
    requires { IsModerate time }
{
    let cut = table_of(alloc, &TETRAHEDRON)?;
    let vertices = [
        [1_000_000, 0, -3, 3_000_000],
        [0, 2_000_001, 7, -5_000_000],
        [-1_000_000, -9, 500_000, 2_000_000],
        [3, -1_000_003, 1_000_000, -7_000_000],
        [999_999, 999_998, -2_000_000, -1_000_000],
    ];
    let mesh = Mesh {
        vertices: Vec::from_slice(alloc, &vertices)?,
        simplices: Vec::from_slice(alloc, &[[0, 1, 2, 3], [1, 0, 2, 4]])?,
    };
    Ok(cut_mesh(alloc, &mesh, &cut, time)?)
}

#[test]
fn two_tetrahedra(rt: HostRuntime) -> Result<(), Fail> {
    let alloc = rt.alloc();
    let moment = joined_moment(alloc, 0)?;
    let positions = [
        [625_000, 750_000, 0],
        [700_000, -300_001, 299_997],
        [999_999, 749_998, -1_500_001],
        [-714_286, 571_422, 357_144],
        [-777_778, -222_230, 611_111],
        [333_332, 666_662, -1_166_667],
    ];
    assert_eq!(rt; moment.vertices.as_slice(), positions.as_slice());
    let triangles = [[0, 1, 4], [0, 4, 3], [0, 5, 2], [0, 3, 5]];
    assert_eq!(rt; moment.simplices.as_slice(), triangles.as_slice());
    // a vertex at the time is late
    let moment = joined_moment(alloc, -5_000_000)?;
    let positions = [
        [200_002, -800_003, 799_999],
        [0, 2_000_001, 7],
        [-222_220, -777_783, 888_888],
    ];
    assert_eq!(rt; moment.vertices.as_slice(), positions.as_slice());
    assert_eq!(rt; moment.simplices.as_slice(), [[0, 2, 1]].as_slice());
    Ok(())
}
