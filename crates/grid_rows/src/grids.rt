//! The rows of a grid, and where each meets the others.

ghost use Rattle.std.specs.Prelude.{◌≡◌, ◌+◌, ◌/◌, ◌%◌, ◌≤◌, ◌<◌, ℕ, All, length, slice_index};
ghost use Rattle.bit_rows.specs.Rows.{word_count as count_of};
ghost use Rattle.grid_rows.specs.MiddleAxes.{AreFewRows, IsMiddleAxis, axis_of, edge_span};

use bit_rows::word_count;

/// A middle axis: the samples along it, the places for cubes, and 1 where the grid has the axis and else 0.
#[derive(Clone, Copy)]
pub struct MiddleAxis {
    pub samples: usize,
    pub cubes: usize,
    pub step: usize,
}

/// The rows of a grid.
#[derive(Clone, Copy)]
pub struct GridRows {
    /// The samples of a row, and the words of their bits.
    pub length: usize,
    pub words: usize,
    /// The middle axes.
    pub second: MiddleAxis,
    pub third: MiddleAxis,
    pub ghost few: { AreFewRows second third },
}

/// Where a row of edges stands: the rows of the samples at its ends, the two sides of it along the middle axes, and the
/// four rows of cubes that it touches, numbered with a border of one row on each side.
#[derive(Clone, Copy)]
pub struct EdgeRow {
    pub near: usize,
    pub far: usize,
    pub along: [bool; 2],
    pub cubes: [usize; 4],
}

/// Where a row of cubes stands: its number with a border of one row on each side, the rows of samples at its four
/// corners along the middle axes, and the nine rows of edges that it touches.
#[derive(Clone, Copy)]
pub struct CubeRow {
    pub number: usize,
    pub corners: [usize; 4],
    pub edges: [usize; 9],
}

impl MiddleAxis {
    /// The axis of this number of a grid of these sizes, or one that the grid lacks.
    pub fn new(sizes: &[u64], axis: usize) -> MiddleAxis
        requires axes { 2 ≤ length sizes.now }
        requires is_axis { IsMiddleAxis (axis_of sizes.now axis) }
        ensures { result ≡ axis_of sizes.now axis }
    {
        if axis < sizes.len() - 1 {
            let samples = sizes[axis] as usize;
            MiddleAxis {
                samples,
                cubes: samples - 1,
                step: 1,
            }
        } else {
            MiddleAxis {
                samples: 1,
                cubes: 1,
                step: 0,
            }
        }
    }

    // The rows of edges along the axis.
    fn edge_span(self) -> usize
        requires { IsMiddleAxis self }
        ensures { result ≡ edge_span self }
    {
        2 * self.samples - 1
    }
}

impl GridRows {
    ghost use Rattle.grid_rows.specs.RowNumbers.{IsCubeRow, IsEdgeRow, bordered, bordered_rows, cube_rows};
    ghost use Rattle.grid_rows.specs.RowNumbers.{edge_number, edge_rows, edges_around, sample_row, sample_rows};

    /// The rows of a grid of these sizes, two to four.
    pub fn new(sizes: &[u64]) -> GridRows
        requires axes { 2 ≤ length sizes.now }
        requires few { AreFewRows (axis_of sizes.now 1) (axis_of sizes.now 2) }
        ensures length { result.length ≡ slice_index sizes.now 0 }
        ensures words { result.words ≡ count_of result.length }
        ensures second { result.second ≡ axis_of sizes.now 1 }
        ensures third { result.third ≡ axis_of sizes.now 2 }
    {
        GridRows {
            length: sizes[0] as usize,
            words: word_count(sizes[0] as usize),
            second: MiddleAxis::new(sizes, 1),
            third: MiddleAxis::new(sizes, 2),
        }
    }

    /// The number of rows of samples in a slice.
    pub fn sample_rows(&self) -> usize
        ensures { result ≡ sample_rows self.now }
    {
        self.second.samples * self.third.samples
    }

    /// The number of rows of cubes between two slices.
    pub fn cube_rows(&self) -> usize
        ensures { result ≡ cube_rows self.now }
    {
        self.second.cubes * self.third.cubes
    }

    /// The number of rows of cubes with a border of one row on each side.
    pub fn bordered_rows(&self) -> usize
        ensures { result ≡ bordered_rows self.now }
    {
        (self.second.cubes + 2) * (self.third.cubes + 2)
    }

    /// The number of rows of edges in a slice or between two.
    pub fn edge_rows(&self) -> usize
        ensures { result ≡ edge_rows self.now }
    {
        self.second.edge_span() * self.third.edge_span()
    }

    /// The place of this row of edges along each middle axis: two for each sample but the last.
    pub fn edge_place(&self, number: usize) -> (usize, usize)
        requires { number < edge_rows self.now }
        ensures first { result.0 ≡ number % edge_span self.now.second }
        ensures second { result.1 ≡ number / edge_span self.now.second }
        ensures first_within { result.0 < edge_span self.now.second }
        ensures second_within { result.1 < edge_span self.now.third }
    {
        let span = self.second.edge_span();
        (number % span, number / span)
    }

    /// Where this row of edges stands.
    pub fn edge_row(&self, number: usize) -> EdgeRow
        requires { number < edge_rows self.now }
        ensures row { IsEdgeRow self.now number result }
        ensures near { result.near < sample_rows self.now }
        ensures far { result.far < sample_rows self.now }
        ensures cubes { All (λ n. n < bordered_rows self.now) result.cubes }
    {
        let (i, j) = self.edge_place(number);
        let (upper_i, upper_j) = ((i + 1) / 2, (j + 1) / 2);
        EdgeRow {
            near: self.sample_row(i / 2, j / 2),
            far: self.sample_row(upper_i, upper_j),
            along: [i % 2 == 1, j % 2 == 1],
            cubes: [
                self.bordered(upper_i, upper_j),
                self.bordered(i / 2 + 1, upper_j),
                self.bordered(upper_i, j / 2 + 1),
                self.bordered(i / 2 + 1, j / 2 + 1),
            ],
        }
    }

    /// Where this row of cubes stands.
    pub fn cube_row(&self, number: usize) -> CubeRow
        requires { number < cube_rows self.now }
        ensures row { IsCubeRow self.now number result }
        ensures number { result.number < bordered_rows self.now }
        ensures corners { All (λ n. n < sample_rows self.now) result.corners }
        ensures edges { All (λ n. n < edge_rows self.now) result.edges }
    {
        let (i, j) = (number % self.second.cubes, number / self.second.cubes);
        let (next_i, next_j) = (i + self.second.step, j + self.third.step);
        CubeRow {
            number: self.bordered(i + 1, j + 1),
            corners: [
                self.sample_row(i, j),
                self.sample_row(next_i, j),
                self.sample_row(i, next_j),
                self.sample_row(next_i, next_j),
            ],
            edges: self.edges_around(i, j),
        }
    }

    // The numbers of the nine rows of edges from i to the next place and from j to the next along the middle axes.
    fn edges_around(&self, i: usize, j: usize) -> [usize; 9]
        requires first { i < self.now.second.cubes }
        requires second { j < self.now.third.cubes }
        ensures rows { result ≡ edges_around self.now i j }
        ensures within { All (λ n. n < edge_rows self.now) result }
    {
        let (middle_i, last_i) = (2 * i + self.second.step, 2 * i + 2 * self.second.step);
        let (middle_j, last_j) = (2 * j + self.third.step, 2 * j + 2 * self.third.step);
        [
            self.edge_number(2 * i, 2 * j),
            self.edge_number(middle_i, 2 * j),
            self.edge_number(last_i, 2 * j),
            self.edge_number(2 * i, middle_j),
            self.edge_number(middle_i, middle_j),
            self.edge_number(last_i, middle_j),
            self.edge_number(2 * i, last_j),
            self.edge_number(middle_i, last_j),
            self.edge_number(last_i, last_j),
        ]
    }

    // The number of the row of samples at i and j along the middle axes.
    fn sample_row(&self, i: usize, j: usize) -> usize
        requires first { i < self.now.second.samples }
        requires second { j < self.now.third.samples }
        ensures row { result ≡ sample_row self.now i j }
        ensures within { result < sample_rows self.now }
    {
        i + self.second.samples * j
    }

    // The number of the row of edges at i and j along the middle axes.
    fn edge_number(&self, i: usize, j: usize) -> usize
        requires first { i < edge_span self.now.second }
        requires second { j < edge_span self.now.third }
        ensures row { result ≡ edge_number self.now i j }
        ensures within { result < edge_rows self.now }
    {
        i + self.second.edge_span() * j
    }

    // The number, with the border, of the row of cubes at i and j along the middle axes.
    fn bordered(&self, i: usize, j: usize) -> usize
        requires first { i < self.now.second.cubes + 2 }
        requires second { j < self.now.third.cubes + 2 }
        ensures row { result ≡ bordered self.now i j }
        ensures within { result < bordered_rows self.now }
    {
        i + (self.second.cubes + 2) * j
    }
}
