//! The numbers of the edges of a cube.
//!
//! The midpoint of an edge of a cube that joins samples is 0, 1 or 2 half steps from the cube's first corner along each
//! axis. So its place among the numbers of the cube is a number of base 3, with axis 0 as the lowest digit. That of an
//! edge to the centre is 0 or 1 half steps and a quarter from there, and its place is a number of base 2 after those of
//! three dimensions.

ghost use Rattle.std.specs.Prelude.{◌≡◌, ◌≢◌, ◌*◌, ◌+◌, ◌-◌, ◌<◌, ◌≤◌, ◌^◌, ◌∷◌, [], ℕ, All, drop, length, slice_index};
ghost use Rattle.iso_model.specs.Values.{Volume};
ghost use Rattle.iso_model.specs.declared.Kind.TheVariants.{Pyramid};
ghost use Rattle.edge_middles.specs.HeldMiddles.{middle_from};
ghost use Rattle.edge_middles.specs.Middles.{joins_samples};
ghost use Rattle.grid_rows.specs.declared.grids.GridRows.{GridRows};
ghost use Rattle.grid_rows.specs.Planes.{HasRowOfEdges};
ghost use Rattle.grid_rows.specs.RowNumbers.{cube_rows};
ghost use Rattle.layer_scan.specs.CubeNumbers.{digits as digits_of, place_of};

use crate::edges::LayerEdges;
use bit_rows::{bit, ones_below};
use grid_rows::{EdgePlane, EdgeWord, GridRows};
use grid_split::Split;
use iso_model::Kind;

/// The numbers of the edges of a cube are those of three edges in each of 27 rows, at most.
pub const MOST_PLACES: usize = 81;

// The first place of an edge to the centre of a cube.
const CENTRE_PLACES: usize = 27;

/// The place of the edge of this number of the cell of this rank, among the numbers of its cube.
pub fn edge_place<C: Split<D>, const D: usize>(rank: u32, edge: u8) -> u8
    requires rank { rank < C.PER_CUBE }
    requires edge { edge < C.EDGES }
    ensures place { result ≡ place_of (middle_from C.KIND D rank edge) }
    ensures within { result < 81 }
{
    let middle = cube_middle::<C, D>(rank, edge);
    if joins_samples(&middle) {
        digits(&middle, 3)
    } else {
        CENTRE_PLACES as u8 + digits(&middle, 2)
    }
}

// The midpoint of the edge, in quarter-units from the first corner of the cube.
fn cube_middle<C: Split<D>, const D: usize>(rank: u32, edge: u8) -> [u8; D]
    requires rank { rank < C.PER_CUBE }
    requires edge { edge < C.EDGES }
    ensures middle { result ≡ middle_from C.KIND D rank edge }
    ensures small { All (λ c. c ≤ 4) result }
    ensures axes { D ≤ 4 }
{
    let (first, second) = C::edge_ends(edge);
    let from = C::offset(rank, first);
    let to = C::offset(rank, second);
    let mut middle = [0; D];
    for axis in 0..D {
        middle[axis] = from[axis] + to[axis];
    }
    middle
}

// Whether the edge with this midpoint joins samples: then all its coordinates are even.
fn joins_samples<const D: usize>(middle: &[u8; D]) -> bool
    ensures { result ≡ joins_samples middle.now }
{
    let mut even = true;
    for axis in 0..D {
        even = even && middle[axis] % 2 == 0;
    }
    even
}

// The number whose digits are the half steps along the axes, the first the lowest.
fn digits<const D: usize>(middle: &[u8; D], base: u8) -> u8
    requires axes { D ≤ 4 }
    requires small { All (λ c. c ≤ 4) middle.now }
    requires base { base ≤ 3 }
    ensures number { result ≡ digits_of base middle.now }
    ensures within { result < 81 }
    ensures small { base ≤ 2 → result ≤ 30 }
{
    let mut number = 0;
    for back in 0..D {
        number = middle[D - 1 - back] / 2 + base * number;
    }
    number
}

/// The words of the rows of edges that the cubes of a word of a row touch: in the slice below them, from there to the
/// slice above them, and in this slice; and in pyramids of the rows of edges to the centres.
#[derive(Clone, Copy)]
pub struct CubeSlots {
    kind: Kind,
    side: usize,
    below: [EdgeWord; 9],
    upright: [EdgeWord; 9],
    lower: [EdgeWord; 9],
    centres: [EdgeWord; 4],
}

impl CubeSlots {
    ghost use Rattle.layer_scan.specs.CubeNumbers.{AreSlotsOf, CountsCubeEdges, HaveFewBefore, HaveRanks, KeepsBelow};
    ghost use Rattle.layer_scan.specs.CubeNumbers.{TellsSlots, cube_number};
    ghost use Rattle.layer_scan.specs.GridEdges.{TellsCubes};
    ghost use Rattle.layer_scan.specs.ScanEdges.{HasEdges};

    /// Those of word `w` of a row of cubes of the layer below the lower slice of a scan.
    pub fn new(edges: &LayerEdges, rows: &GridRows, number: usize, w: usize) -> CubeSlots
        requires edges { HasEdges rows.now edges.now }
        requires row { number < cube_rows rows.now }
        requires word { w < rows.now.words }
        ensures slots { AreSlotsOf edges.now rows.now number w result }
        ensures told { (v : Volume) (s : ℕ) → TellsCubes v rows.now s edges.now
            → TellsSlots v rows.now s number w result }
    {
        let row = rows.cube_row(number);
        CubeSlots {
            kind: edges.kind,
            side: (2 * rows.second.step + 1) * (2 * rows.third.step + 1),
            below: nine_words(&edges.below, &row.edges, w),
            upright: nine_words(&edges.upright, &row.edges, w),
            lower: nine_words(&edges.lower, &row.edges, w),
            centres: centre_words(edges, number, w),
        }
    }

    /// Writes the numbers of the edges of the cube at this place of the word, each at the place of its midpoint. What
    /// stands at other places has no meaning.
    pub fn count(&self, numbers: &mut [u32; MOST_PLACES], place: u32)
        requires place { place < 64 }
        requires told { (v : Volume) × (rows : GridRows) × (s : ℕ) × (c : ℕ) × (w : ℕ)
            × TellsSlots v rows s c w self.now }
        ensures numbers { (v : Volume) (rows : GridRows) (s c w : ℕ) → TellsSlots v rows s c w self.now
            → 64 * w + place + 1 < rows.length
            → CountsCubeEdges v (cube_number rows s c (64 * w + place)) numbers.new }
    {
        count_rows(numbers, &self.below, 0, self.side, place);
        count_rows(numbers, &self.upright, 3 * self.side, self.side, place);
        count_rows(numbers, &self.lower, 6 * self.side, self.side, place);
        self.count_centres(numbers, place);
    }

    // Writes the numbers of the edges to the centre, in pyramids; else none.
    fn count_centres(&self, numbers: &mut [u32; MOST_PLACES], place: u32)
        requires place { place < 64 }
        requires few { self.now.kind ≡ Pyramid → HaveFewBefore 4 self.now.centres }
        ensures ranks { self.now.kind ≡ Pyramid → HaveRanks numbers.new 27 2 self.now.centres 4 place }
        ensures below { self.now.kind ≡ Pyramid → KeepsBelow 27 numbers.old numbers.new }
        ensures others { self.now.kind ≢ Pyramid → numbers.new ≡ numbers.old }
    {
        match self.kind {
            Kind::Pyramid => count_pairs(numbers, &self.centres, place),
            Kind::Cube | Kind::Simplex => {}
        }
    }
}

ghost use Rattle.layer_scan.specs.CubeNumbers.{AreWordsOf, HasFewBefore, HaveFewBefore};
ghost use Rattle.layer_scan.specs.CubeNumbers.{HaveRanks, KeepsBelow, ranked};
ghost use Rattle.layer_scan.specs.ScanEdges.{HasEdges};

// Word `w` of each of these rows of a plane.
fn nine_words(plane: &EdgePlane, rows: &[usize; 9], w: usize) -> [EdgeWord; 9]
    requires rows { All (λ n. HasRowOfEdges plane.now n) rows.now }
    requires word { w < plane.now.words }
    ensures { AreWordsOf plane.now rows.now w result }
{
    let mut words = [EdgeWord::NONE; 9];
    for k in 0..9 {
        words[k] = plane.word(rows[k], w);
    }
    words
}

// Word `w` of the two rows of edges that lead from the slice below a row of cubes to their centres, and of the two that
// lead from there to the slice above, in pyramids.
fn centre_words(edges: &LayerEdges, number: usize, w: usize) -> [EdgeWord; 4]
    requires edges { (rows : GridRows) × HasEdges rows edges.now × (number < cube_rows rows) × (w < rows.words) }
    ensures to_lower { edges.now.kind ≡ Pyramid →
        AreWordsOf edges.now.to_lower (2 * number ∷ (2 * number + 1) ∷ []) w result }
    ensures to_upper { edges.now.kind ≡ Pyramid →
        AreWordsOf edges.now.to_upper (2 * number ∷ (2 * number + 1) ∷ []) w (drop 2 result) }
{
    match edges.kind {
        Kind::Pyramid => [
            edges.to_lower.word(2 * number, w),
            edges.to_lower.word(2 * number + 1, w),
            edges.to_upper.word(2 * number, w),
            edges.to_upper.word(2 * number + 1, w),
        ],
        Kind::Cube | Kind::Simplex => [EdgeWord::NONE; 4],
    }
}

// Writes three numbers for each of the first words, from a place on: those of the edges at the place and at the next.
fn count_rows(
    numbers: &mut [u32; MOST_PLACES],
    words: &[EdgeWord; 9],
    first: usize,
    count: usize,
    place: u32,
)
    requires place { place < 64 }
    requires count { count ≤ 9 }
    requires room { first + 3 * count ≤ 81 }
    requires few { HaveFewBefore 9 words.now }
    ensures ranks { HaveRanks numbers.new first 3 words.now count place }
    ensures below { KeepsBelow first numbers.old numbers.new }
{
    for k in 0..count {
        count_three(numbers, first + 3 * k, &words[k], place);
    }
}

// Writes the numbers of the first and the second edge at this place of a word, and of the first at the next place.
fn count_three(numbers: &mut [u32; MOST_PLACES], at: usize, word: &EdgeWord, place: u32)
    requires place { place < 64 }
    requires room { at + 3 ≤ 81 }
    requires few { HasFewBefore word.now }
    ensures first { slice_index numbers.new at ≡ ranked word.now place 0 }
    ensures second { slice_index numbers.new (at + 1) ≡ ranked word.now place 1 }
    ensures next { slice_index numbers.new (at + 2) ≡ ranked word.now place 2 }
    ensures below { KeepsBelow at numbers.old numbers.new }
{
    let number = rank(word, place);
    let second = number + bit(word.first, place);
    numbers[at] = number;
    numbers[at + 1] = second;
    numbers[at + 2] = second + bit(word.second, place);
}

// Writes two numbers for each row of edges to the centres: those of the first and the second edge at this place.
fn count_pairs(numbers: &mut [u32; MOST_PLACES], words: &[EdgeWord; 4], place: u32)
    requires place { place < 64 }
    requires few { HaveFewBefore 4 words.now }
    ensures ranks { HaveRanks numbers.new 27 2 words.now 4 place }
    ensures below { KeepsBelow 27 numbers.old numbers.new }
{
    for k in 0..4 {
        count_two(numbers, CENTRE_PLACES + 2 * k, &words[k], place);
    }
}

// Writes the numbers of the first and the second edge at this place of a word.
fn count_two(numbers: &mut [u32; MOST_PLACES], at: usize, word: &EdgeWord, place: u32)
    requires place { place < 64 }
    requires room { at + 2 ≤ 81 }
    requires few { HasFewBefore word.now }
    ensures first { slice_index numbers.new at ≡ ranked word.now place 0 }
    ensures second { slice_index numbers.new (at + 1) ≡ ranked word.now place 1 }
    ensures below { KeepsBelow at numbers.old numbers.new }
{
    let number = rank(word, place);
    numbers[at] = number;
    numbers[at + 1] = number + bit(word.first, place);
}

// The number of the first edge at or after this place of a word.
fn rank(word: &EdgeWord, place: u32) -> u32
    requires place { place < 64 }
    requires few { HasFewBefore word.now }
    ensures rank { result ≡ ranked word.now place 0 }
    ensures few { result ≤ 2 ^ 31 + 128 }
{
    word.before + (ones_below(word.first, place) + ones_below(word.second, place))
}
