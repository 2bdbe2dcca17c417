//! The mesh of a file.

ghost use Rattle.std.specs.Prelude.{◌≡◌, ℕ, ◌+◌, ◌*◌, ◌^◌, ◌<◌, ◌≤◌, ◌++◌, ◌∷◌, [], true, List, length, All, OnOk, IfOk, IfErr, IsNone, IfSome, is_some, None};
ghost use Rattle.iso_base.specs.Shelves.{IsSameShelf};
ghost use Rattle.iso_formats.specs.MeshFile.{at_first, at_vertices};
ghost use Rattle.off_read.specs.Faults.{BlamesFairly, blame_of, word_cause};
ghost use Rattle.off_read.specs.Meshes.{EndsAs, GivesCount, FailsCount, GivesEdges, FailsEdges, GivesIndex};
ghost use Rattle.off_read.specs.Meshes.{FailsIndex, GivesCoordinates, FailsCoordinates, GivesFace, FailsFace, GivesFaces};
ghost use Rattle.off_read.specs.Meshes.{EndsAsMeshOf, FailsEnd, FailsFaces, GivesDimension, GivesEnd};
ghost use Rattle.off_read.specs.AnyOffs.{dimension_of, mesh_of, IsRightMesh, IsMeshOf, IsRefusal, TakesWhole};
ghost use Rattle.mesh_audit.specs.OffMeshes.{AreIndices};
ghost use Rattle.off_read.specs.ScanForms.{limit};
ghost use Rattle.off_read.specs.Scans.{EndsEarly, FailsAt, GivesWord, budget, lines_passed};

use crate::faults::OffFault;
use crate::reader::Reader;
use crate::words::Word;
use iso_base::Shelf;
use mesh_audit::Off;
use std::alloc::Global;

/// A mesh of two, three or four dimensions, of which the positions were passed over.
#[derive(Drop)]
pub enum AnyOff {
    O2(Off<2>),
    O3(Off<3>),
    O4(Off<4>),
}

/// Reads the mesh of the file that was begun.
///
/// The file is taken to its end before an answer that is a mesh or a word that does not fit, and at most 2^30 + 1
/// bytes of it. Holds the numbers of the simplices and a page of the file, and takes time in proportion to its bytes.
pub fn read_off<S: Shelf>(alloc: Global, shelf: &mut S) -> Result<AnyOff, OffFault>
    ensures shelf { IsSameShelf S.faults S.files S.sound shelf.old shelf.new }
    ensures blames { BlamesFairly S.faults shelf.old shelf.new result }
    ensures sound { S.sound shelf.old → IfErr result (λ fault. IsNone (blame_of fault)) }
    ensures right { IfOk result (λ off. IsRightMesh (mesh_of off)) }
    ensures whole { IfOk result (λ off. TakesWhole (S.rest shelf.old) (S.rest shelf.new)) }
    ensures spelled { IfOk result (λ off. IfSome (S.rest shelf.old) (λ bytes. IsMeshOf bytes off)) }
    ensures refused { IfErr result (IsRefusal (S.rest shelf.old) (S.rest shelf.new)) }
{
    let mut reader = Reader::new();
    let answer = read_mesh(alloc, shelf, &mut reader);
    if let Err(fault) = &answer {
        if is_of_word(fault) {
            reader.drain(shelf)?;
        }
    }
    answer
}

// Whether a fault is that of a word that does not fit.
fn is_of_word(fault: &OffFault) -> bool
    ensures { result ≡ is_some (word_cause fault.now) }
{
    !matches!(
        fault,
        OffFault::Long | OffFault::Short(_) | OffFault::Shelf(_) | OffFault::Memory
    )
}

fn read_mesh<S: Shelf>(
    alloc: Global,
    shelf: &mut S,
    reader: &mut Reader,
) -> Result<AnyOff, OffFault>
    requires few { reader.old.taken ≤ limit }
    requires fresh { budget reader.old ≤ limit }
    ensures shelf { IsSameShelf S.faults S.files S.sound shelf.old shelf.new }
    ensures blames { BlamesFairly S.faults shelf.old shelf.new result }
    ensures sound { S.sound shelf.old → IfErr result (λ fault. IsNone (blame_of fault)) }
    ensures reads { IfOk result (λ off. EndsAs (S.rest shelf.old) (S.rest shelf.new) reader.old reader.new at_first
        (dimension_of off) (mesh_of off).vertices (mesh_of off).simplices) }
    ensures right { IfOk result (λ off. IsRightMesh (mesh_of off)) }
    ensures fails { IfErr result (FailsAt (S.rest shelf.old) (S.rest shelf.new) reader.old reader.new at_first) }
{
    match read_dimension(shelf, reader)? {
        2 => Ok(AnyOff::O2(read_body(alloc, shelf, reader)?)),
        3 => Ok(AnyOff::O3(read_body(alloc, shelf, reader)?)),
        _ => Ok(AnyOff::O4(read_body(alloc, shelf, reader)?)),
    }
}

// The next word, which is to be there.
fn expect_word<S: Shelf>(shelf: &mut S, reader: &mut Reader) -> Result<Word, OffFault>
    requires { reader.old.taken ≤ limit }
    ensures shelf { IsSameShelf S.faults S.files S.sound shelf.old shelf.new }
    ensures blames { BlamesFairly S.faults shelf.old shelf.new result }
    ensures sound { S.sound shelf.old → IfErr result (λ fault. IsNone (blame_of fault)) }
    ensures gives { IfOk result (GivesWord (S.rest shelf.old) (S.rest shelf.new) reader.old reader.new) }
    ensures fails { IfErr result (EndsEarly (S.rest shelf.old) (S.rest shelf.new) reader.old reader.new) }
{
    match reader.next_word(shelf)? {
        Some(word) => Ok(word),
        None => Err(OffFault::Short(reader.lines())),
    }
}

// The dimension that the first words say.
fn read_dimension<S: Shelf>(shelf: &mut S, reader: &mut Reader) -> Result<u8, OffFault>
    requires { reader.old.taken ≤ limit }
    ensures shelf { IsSameShelf S.faults S.files S.sound shelf.old shelf.new }
    ensures blames { BlamesFairly S.faults shelf.old shelf.new result }
    ensures sound { S.sound shelf.old → IfErr result (λ fault. IsNone (blame_of fault)) }
    ensures gives { IfOk result (GivesDimension (S.rest shelf.old) (S.rest shelf.new) reader.old reader.new) }
    ensures known { IfOk result (λ d. (2 ≤ d) × (d ≤ 4)) }
    ensures spends { OnOk result (budget reader.new < budget reader.old) }
    ensures fails { IfErr result (FailsAt (S.rest shelf.old) (S.rest shelf.new) reader.old reader.new at_first) }
{
    let first = expect_word(shelf, reader)?;
    if first.is(b"OFF") {
        return Ok(3);
    }
    if !first.is(b"nOFF") {
        return Err(OffFault::Header(first.line));
    }
    let size = expect_word(shelf, reader)?;
    if size.is(b"2") {
        return Ok(2);
    }
    if size.is(b"3") {
        return Ok(3);
    }
    if size.is(b"4") {
        return Ok(4);
    }
    Err(OffFault::Header(size.line))
}

fn read_body<S: Shelf, const D: usize>(
    alloc: Global,
    shelf: &mut S,
    reader: &mut Reader,
) -> Result<Off<D>, OffFault>
    requires few { reader.old.taken ≤ limit }
    requires some { 0 < D }
    requires digit { D ≤ 4 }
    requires spent { budget reader.old < limit }
    ensures shelf { IsSameShelf S.faults S.files S.sound shelf.old shelf.new }
    ensures blames { BlamesFairly S.faults shelf.old shelf.new result }
    ensures sound { S.sound shelf.old → IfErr result (λ fault. IsNone (blame_of fault)) }
    ensures reads { IfOk result (EndsAsMeshOf D (S.rest shelf.old) (S.rest shelf.new) reader.old reader.new) }
    ensures indices { IfOk result AreIndices }
    ensures few { IfOk result (λ off. length off.simplices < 2 ^ 30) }
    ensures fails { IfErr result (FailsAt (S.rest shelf.old) (S.rest shelf.new) reader.old reader.new (at_vertices D)) }
{
    let vertices = read_count(shelf, reader)?;
    let faces = read_count(shelf, reader)?;
    read_edges(shelf, reader)?;
    read_coordinates(shelf, reader, u64::from(vertices) * D as u64)?;
    let simplices = read_faces(alloc, shelf, reader, vertices, faces)?;
    see_end(shelf, reader)?;
    Ok(Off {
        vertices,
        simplices,
    })
}

// A number of vertices or faces.
fn read_count<S: Shelf>(shelf: &mut S, reader: &mut Reader) -> Result<u32, OffFault>
    requires { reader.old.taken ≤ limit }
    ensures shelf { IsSameShelf S.faults S.files S.sound shelf.old shelf.new }
    ensures blames { BlamesFairly S.faults shelf.old shelf.new result }
    ensures sound { S.sound shelf.old → IfErr result (λ fault. IsNone (blame_of fault)) }
    ensures gives { IfOk result (GivesCount (S.rest shelf.old) (S.rest shelf.new) reader.old reader.new) }
    ensures fails { IfErr result (FailsCount (S.rest shelf.old) (S.rest shelf.new) reader.old reader.new) }
{
    let word = expect_word(shelf, reader)?;
    match word.count() {
        Some(count) => Ok(count),
        None => Err(OffFault::Count(word.line)),
    }
}

// The number of edges, which is not used.
fn read_edges<S: Shelf>(shelf: &mut S, reader: &mut Reader) -> Result<(), OffFault>
    requires { reader.old.taken ≤ limit }
    ensures shelf { IsSameShelf S.faults S.files S.sound shelf.old shelf.new }
    ensures blames { BlamesFairly S.faults shelf.old shelf.new result }
    ensures sound { S.sound shelf.old → IfErr result (λ fault. IsNone (blame_of fault)) }
    ensures gives { OnOk result (GivesEdges (S.rest shelf.old) (S.rest shelf.new) reader.old reader.new) }
    ensures fails { IfErr result (FailsEdges (S.rest shelf.old) (S.rest shelf.new) reader.old reader.new) }
{
    let word = expect_word(shelf, reader)?;
    if !word.is_numeral() {
        return Err(OffFault::Count(word.line));
    }
    Ok(())
}

fn read_coordinates<S: Shelf>(
    shelf: &mut S,
    reader: &mut Reader,
    count: u64,
) -> Result<(), OffFault>
    requires { reader.old.taken ≤ limit }
    ensures shelf { IsSameShelf S.faults S.files S.sound shelf.old shelf.new }
    ensures blames { BlamesFairly S.faults shelf.old shelf.new result }
    ensures sound { S.sound shelf.old → IfErr result (λ fault. IsNone (blame_of fault)) }
    ensures gives { OnOk result (GivesCoordinates count (S.rest shelf.old) (S.rest shelf.new) reader.old reader.new) }
    ensures fails { IfErr result (FailsCoordinates count (S.rest shelf.old) (S.rest shelf.new) reader.old reader.new) }
{
    let mut left = count;
    while left > 0 {
        let word = expect_word(shelf, reader)?;
        if !word.is_coordinate() {
            return Err(OffFault::Coordinate(word.line));
        }
        left -= 1;
    }
    Ok(())
}

fn read_faces<S: Shelf, const D: usize>(
    alloc: Global,
    shelf: &mut S,
    reader: &mut Reader,
    vertices: u32,
    faces: u32,
) -> Result<Vec<[u32; D]>, OffFault>
    requires few { reader.old.taken ≤ limit }
    requires some { 0 < D }
    requires digit { D ≤ 4 }
    ensures shelf { IsSameShelf S.faults S.files S.sound shelf.old shelf.new }
    ensures blames { BlamesFairly S.faults shelf.old shelf.new result }
    ensures sound { S.sound shelf.old → IfErr result (λ fault. IsNone (blame_of fault)) }
    ensures gives { IfOk result (λ simplices. GivesFaces D vertices faces
        (S.rest shelf.old) (S.rest shelf.new) reader.old reader.new simplices.items) }
    ensures counted { IfOk result (λ simplices. length simplices.items ≡ faces) }
    ensures spends { IfOk result (λ simplices. length simplices.items + budget reader.new ≤ budget reader.old) }
    ensures below { IfOk result (λ simplices. All (All (λ i. i < vertices)) simplices.items) }
    ensures fails { IfErr result
        (FailsFaces D vertices faces (S.rest shelf.old) (S.rest shelf.new) reader.old reader.new) }
{
    let mut simplices = Vec::new(alloc);
    while simplices.len() < faces as usize {
        let simplex = read_face(shelf, reader, vertices)?;
        let Ok(()) = simplices.push(simplex) else {
            return Err(OffFault::Memory);
        };
    }
    Ok(simplices)
}

// A face, and the rest of its line.
fn read_face<S: Shelf, const D: usize>(
    shelf: &mut S,
    reader: &mut Reader,
    vertices: u32,
) -> Result<[u32; D], OffFault>
    requires few { reader.old.taken ≤ limit }
    requires some { 0 < D }
    requires digit { D ≤ 4 }
    ensures shelf { IsSameShelf S.faults S.files S.sound shelf.old shelf.new }
    ensures blames { BlamesFairly S.faults shelf.old shelf.new result }
    ensures sound { S.sound shelf.old → IfErr result (λ fault. IsNone (blame_of fault)) }
    ensures gives { IfOk result (GivesFace D vertices (S.rest shelf.old) (S.rest shelf.new) reader.old reader.new) }
    ensures spends { OnOk result (budget reader.new < budget reader.old) }
    ensures below { IfOk result (All (λ i. i < vertices)) }
    ensures fails { IfErr result (FailsFace D vertices (S.rest shelf.old) (S.rest shelf.new) reader.old reader.new) }
{
    let size = expect_word(shelf, reader)?;
    if !size.is(&[b'0' + D as u8]) {
        return Err(OffFault::FaceSize(size.line));
    }
    let mut simplex = [0; D];
    for place in 0..D {
        simplex[place] = read_index(shelf, reader, vertices)?;
    }
    reader.pass_line();
    Ok(simplex)
}

fn read_index<S: Shelf>(shelf: &mut S, reader: &mut Reader, vertices: u32) -> Result<u32, OffFault>
    requires { reader.old.taken ≤ limit }
    ensures shelf { IsSameShelf S.faults S.files S.sound shelf.old shelf.new }
    ensures blames { BlamesFairly S.faults shelf.old shelf.new result }
    ensures sound { S.sound shelf.old → IfErr result (λ fault. IsNone (blame_of fault)) }
    ensures gives { IfOk result (GivesIndex vertices (S.rest shelf.old) (S.rest shelf.new) reader.old reader.new) }
    ensures below { IfOk result (λ index. index < vertices) }
    ensures fails { IfErr result (FailsIndex vertices (S.rest shelf.old) (S.rest shelf.new) reader.old reader.new) }
{
    let word = expect_word(shelf, reader)?;
    match word.index(vertices) {
        Some(index) => Ok(index),
        None => Err(OffFault::Index(word.line)),
    }
}

// No word follows the last face.
fn see_end<S: Shelf>(shelf: &mut S, reader: &mut Reader) -> Result<(), OffFault>
    requires { reader.old.taken ≤ limit }
    ensures shelf { IsSameShelf S.faults S.files S.sound shelf.old shelf.new }
    ensures blames { BlamesFairly S.faults shelf.old shelf.new result }
    ensures sound { S.sound shelf.old → IfErr result (λ fault. IsNone (blame_of fault)) }
    ensures gives { OnOk result (GivesEnd (S.rest shelf.old) (S.rest shelf.new) reader.old reader.new) }
    ensures fails { IfErr result (FailsEnd (S.rest shelf.old) (S.rest shelf.new) reader.old reader.new) }
{
    match reader.next_word(shelf)? {
        Some(word) => Err(OffFault::Extra(word.line)),
        None => Ok(()),
    }
}
