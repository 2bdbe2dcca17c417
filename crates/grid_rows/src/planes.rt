//! Planes of rows.

ghost use Rattle.std.specs.Prelude.{◌≡◌, ℕ, ◌*◌, ◌<◌, ◌^◌, IfOk, length, slice_get};
ghost use Rattle.std.specs.Borrow.{sem};
ghost use Rattle.std.specs.Prelude.{List};
ghost use Rattle.grid_rows.specs.declared.planes.BitPlane.{BitPlane};
ghost use Rattle.grid_rows.specs.declared.planes.EdgePlane.{EdgePlane};
ghost use Rattle.grid_rows.specs.declared.planes.EdgeWord.{EdgeWord};
ghost use Rattle.grid_rows.specs.Planes.{BeginsBits, BeginsEdges, HasNoEdge, HasRowOfBits, HasRowOfEdges, IsClear};
ghost use Rattle.grid_rows.specs.Planes.{KeepsBits, KeepsEdges};
ghost use Rattle.grid_rows.specs.Planes.{LendsBits, LendsEdges, bit_row, edge_row};

use iso_base::Memory;
use std::alloc::Global;

/// Rows of bits, all of the same number of words.
#[derive(Drop)]
pub struct BitPlane {
    words: usize,
    bits: Vec<u64>,
}

impl BitPlane {
    /// Rows whose bits are all clear.
    pub fn new(alloc: Global, rows: usize, words: usize) -> Result<BitPlane, Memory>
        requires { rows * words < 2 ^ 40 }
        ensures clear { IfOk result (λ plane. IsClear rows words plane) }
    {
        match vec![in alloc; 0; rows * words] {
            Ok(bits) => Ok(BitPlane { words, bits }),
            Err(_) => Err(Memory),
        }
    }

    /// The row of this number.
    pub fn row(&self, number: usize) -> &[u64]
        requires { HasRowOfBits self.now number }
        ensures row { result.now ≡ bit_row self.now number }
        ensures long { length result.now ≡ self.now.words }
    {
        let first = number * self.words;
        &self.bits[first..first + self.words]
    }

    /// The row of this number, to be written.
    pub fn row_mut(&mut self, number: usize) -> &mut [u64]
        requires { HasRowOfBits self.old number }
        ensures* writes_back { sem 𝓛 (LendsBits self.entry number result) }
        ensures row { result.now ≡ bit_row self.old number }
        ensures long { length result.now ≡ self.old.words }
    {
        let first = number * self.words;
        let last = first + self.words;
        self.bits.slice_mut(first..last)
    }
}

/// A word of a row of edges: the bits of two directions that take turns in the row, and how many edges come before.
#[derive(Clone, Copy)]
pub struct EdgeWord {
    pub first: u64,
    pub second: u64,
    pub before: u32,
}

impl EdgeWord {
    /// A word with no edge.
    pub const NONE: EdgeWord = EdgeWord {
        first: 0,
        second: 0,
        before: 0,
    };
}

/// Rows of edges, all of the same number of words.
#[derive(Drop)]
pub struct EdgePlane {
    words: usize,
    edges: Vec<EdgeWord>,
}

impl EdgePlane {
    /// Rows with no edge.
    pub fn new(alloc: Global, rows: usize, words: usize) -> Result<EdgePlane, Memory>
        requires { rows * words < 2 ^ 40 }
        ensures none { IfOk result (λ plane. HasNoEdge rows words plane) }
    {
        match vec![in alloc; EdgeWord::NONE; rows * words] {
            Ok(edges) => Ok(EdgePlane { words, edges }),
            Err(_) => Err(Memory),
        }
    }

    /// The row of this number.
    pub fn row(&self, number: usize) -> &[EdgeWord]
        requires { HasRowOfEdges self.now number }
        ensures row { result.now ≡ edge_row self.now number }
        ensures long { length result.now ≡ self.now.words }
    {
        let first = number * self.words;
        &self.edges[first..first + self.words]
    }

    /// The row of this number, to be written.
    pub fn row_mut(&mut self, number: usize) -> &mut [EdgeWord]
        requires { HasRowOfEdges self.old number }
        ensures* writes_back { sem 𝓛 (LendsEdges self.entry number result) }
        ensures row { result.now ≡ edge_row self.old number }
        ensures long { length result.now ≡ self.old.words }
    {
        let first = number * self.words;
        let last = first + self.words;
        self.edges.slice_mut(first..last)
    }

    /// Word `w` of the row of this number.
    pub fn word(&self, number: usize, w: usize) -> EdgeWord
        requires row { HasRowOfEdges self.now number }
        requires word { w < self.now.words }
        ensures { Some result ≡ slice_get (edge_row self.now number) w }
    {
        self.edges[number * self.words + w]
    }
}

/// What is written to one row of a plane stands there, and the other rows stay; the rows of a new plane are empty.
pub fn planes_law()
    ensures bits { (plane : BitPlane) (number : ℕ) (words : List ℕ) → KeepsBits plane number words }
    ensures edges { (plane : EdgePlane) (number : ℕ) (words : List EdgeWord) → KeepsEdges plane number words }
    ensures clear { (rows words : ℕ) (plane : BitPlane) → BeginsBits rows words plane }
    ensures no_edge { (rows words : ℕ) (plane : EdgePlane) → BeginsEdges rows words plane }
{}
