//! The vertices of a row of edges.

ghost use Rattle.std.specs.Prelude.{◌≡◌, ℕ, ◌+◌, ◌*◌, ◌^◌, ◌<◌, ◌≤◌, ◌==◌, ◌++◌, ◌∷◌, [], length, OnOk};
ghost use Rattle.layer_mesh.specs.RowVertices.{IsCrossedRow, IsCrossedWord, IsFirstCrossed, IsSecondCrossed};
ghost use Rattle.layer_mesh.specs.RowVertices.{IsSoundRow, first_vertex, one_if, place_vertices, row_vertices};
ghost use Rattle.layer_mesh.specs.RowVertices.{second_vertex, word_vertices};

use crate::ends::{CentreEnds, SampleEnds};
use bit_rows::{Ones, bit};
use grid_rows::EdgeWord;
use iso_base::Memory;

// A row of edges: of those that join samples, or of those between centres and corners of cubes. At each place along
// axis 0 it has two edges.
#[derive(Clone, Copy)]
pub(crate) enum RowEnds<'a, const D: usize> {
    Samples(SampleEnds<'a, D>),
    Centres(CentreEnds<'a, D>),
}

impl<const D: usize> RowEnds<'_, D> {
    // The vertex on the first edge at x.
    fn first_vertex(&self, x: usize) -> [i64; D]
        requires sound { IsSoundRow self.now }
        requires crossed { IsFirstCrossed self.now x }
        ensures { result ≡ first_vertex self.now x }
    {
        match self {
            RowEnds::Samples(ends) => ends.vertex(4 * x as u32, x, x),
            RowEnds::Centres(ends) => ends.vertex(4 * x as u32 + 1, x, x),
        }
    }

    // The vertex on the second edge at x.
    fn second_vertex(&self, x: usize) -> [i64; D]
        requires sound { IsSoundRow self.now }
        requires crossed { IsSecondCrossed self.now x }
        ensures { result ≡ second_vertex self.now x }
    {
        match self {
            RowEnds::Samples(ends) => ends.vertex(4 * x as u32 + 2, x, x + 1),
            RowEnds::Centres(ends) => ends.vertex(4 * x as u32 + 3, x, x + 1),
        }
    }
}

// Adds the vertices of a row, in their order.
pub(crate) fn add_row<const D: usize>(
    vertices: &mut Vec<[i64; D]>,
    row: &[EdgeWord],
    ends: &RowEnds<'_, D>,
) -> Result<(), Memory>
    requires few { length row.now ≤ 2 ^ 40 }
    requires sound { IsSoundRow ends.now }
    requires crossed { IsCrossedRow ends.now row.now }
    ensures { OnOk result (vertices.new.items ≡ vertices.old.items ++ row_vertices ends.now row.now) }
{
    for w in 0..row.len() {
        add_word(vertices, &row[w], w, ends)?;
    }
    Ok(())
}

// Adds those of word `w`.
fn add_word<const D: usize>(
    vertices: &mut Vec<[i64; D]>,
    word: &EdgeWord,
    w: usize,
    ends: &RowEnds<'_, D>,
) -> Result<(), Memory>
    requires few { w ≤ 2 ^ 40 }
    requires sound { IsSoundRow ends.now }
    requires crossed { IsCrossedWord ends.now w word.now }
    ensures { OnOk result (vertices.new.items ≡ vertices.old.items ++ word_vertices ends.now w word.now) }
{
    for place in Ones::of(word.first | word.second) {
        add_place(vertices, word, w, place, ends)?;
    }
    Ok(())
}

// Adds those at a place of word `w`.
fn add_place<const D: usize>(
    vertices: &mut Vec<[i64; D]>,
    word: &EdgeWord,
    w: usize,
    place: u32,
    ends: &RowEnds<'_, D>,
) -> Result<(), Memory>
    requires few { w ≤ 2 ^ 40 }
    requires place { place < 64 }
    requires sound { IsSoundRow ends.now }
    requires crossed { IsCrossedWord ends.now w word.now }
    ensures { OnOk result (vertices.new.items ≡ vertices.old.items ++ place_vertices ends.now w word.now place) }
{
    let x = 64 * w + place as usize;
    add_first(vertices, bit(word.first, place), x, ends)?;
    add_second(vertices, bit(word.second, place), x, ends)?;
    Ok(())
}

// Adds that on the first edge at x, where its bit is set.
fn add_first<const D: usize>(
    vertices: &mut Vec<[i64; D]>,
    bit: u32,
    x: usize,
    ends: &RowEnds<'_, D>,
) -> Result<(), Memory>
    requires sound { IsSoundRow ends.now }
    requires crossed { bit ≡ 1 → IsFirstCrossed ends.now x }
    ensures { OnOk result (vertices.new.items ≡ vertices.old.items ++ one_if (bit == 1) (first_vertex ends.now x)) }
{
    if bit == 1 {
        push(vertices, ends.first_vertex(x))
    } else {
        Ok(())
    }
}

// Adds that on the second edge at x, where its bit is set.
fn add_second<const D: usize>(
    vertices: &mut Vec<[i64; D]>,
    bit: u32,
    x: usize,
    ends: &RowEnds<'_, D>,
) -> Result<(), Memory>
    requires sound { IsSoundRow ends.now }
    requires crossed { bit ≡ 1 → IsSecondCrossed ends.now x }
    ensures { OnOk result (vertices.new.items ≡ vertices.old.items ++ one_if (bit == 1) (second_vertex ends.now x)) }
{
    if bit == 1 {
        push(vertices, ends.second_vertex(x))
    } else {
        Ok(())
    }
}

// Adds a vertex.
pub(crate) fn push<const D: usize>(
    vertices: &mut Vec<[i64; D]>,
    vertex: [i64; D],
) -> Result<(), Memory>
    ensures { OnOk result (vertices.new.items ≡ vertices.old.items ++ vertex.entry ∷ []) }
{
    match vertices.push(vertex) {
        Ok(()) => Ok(()),
        Err(_) => Err(Memory),
    }
}
