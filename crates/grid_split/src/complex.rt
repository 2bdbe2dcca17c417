ghost use Rattle.std.specs.Prelude.{◌≡◌, ℕ, ◌+◌, ◌*◌, ◌^◌, ◌==◌, ◌++◌, nat_lt, if◌then◌else◌, ◌<◌, ◌≤◌, ◌↔◌, List, length, slice_index, slice_index_or, All, Some, IfSome, IfNone, IsNone, pos, ◌+ℤ◌};
ghost use Rattle.iso_model.specs.Values.{product};
ghost use Rattle.grid_split.specs.Steps.{IsStep, stepped, LeavesAxis, LeavesCubes, IsShiftedCube};
ghost use Rattle.iso_model.specs.Points.{point, comes_first};
ghost use Rattle.iso_model.specs.Splits.{cells_per_cube, cell_count, cube_of, rank_of, corner as corner_of, edge as edge_of, edge_of_ends, is_odd_cell};
ghost use Rattle.iso_model.specs.Neighbours.{facet_points, IsNeighbour, IsRing, OnOuterBoundary};
ghost use Rattle.split_laws.specs.RoundEdges.{IsEdge, StandsAt, IsMissing, IsMissingIn, AreFit, IsArc};
ghost use Rattle.grid_split.specs.EdgeEnds.{as_edge};

use crate::rings::{Ring, cells_round, middle};
use crate::{Edge, Split};
use arrayvec::ArrayVec;
use split_checks::Place;
use std::marker::{Model, PhantomData};

/// The cells of a grid. A cell's number is its cube's number times the cells of a cube, plus its rank; cubes are
/// numbered with axis 0 fastest.
#[derive(Drop)]
pub struct Complex<C: Split<D>, const D: usize> {
    sizes: [u64; D],
    // the cubes along each axis, and by how much a cube's number grows along it
    spans: [u32; D],
    strides: [u32; D],
    count: u64,
    split: PhantomData<C>,
}

impl<C: Split<D>, const D: usize> Model for Complex<C, D> {
    ghost use Rattle.std.specs.Prelude.{ℕ, List};
    ghost use Rattle.grid_split.specs.Strides.{IsComplex};

    ghost Value = { List ℕ };

    ghost view = { λ c. c.sizes };

    ghost invariant = { λ c. IsComplex C.KIND D c.sizes c.spans c.strides c.count };
}

impl<C: Split<D>, const D: usize> Complex<C, D> {
    /// The complex of a grid with these numbers of samples along its axes. Each is at least 1, and their product is
    /// at most 2^27.
    pub fn new(sizes: [u64; D]) -> Complex<C, D>
        requires some { All (λ n. 1 ≤ n) sizes }
        requires few { product sizes ≤ 2 ^ 27 }
        ensures { result ≡ sizes.entry }
    {
        let mut spans = [0; D];
        let mut strides = [0; D];
        let mut cubes = 1;
        for axis in 0..D {
            let span = (sizes[axis] - 1) as u32;
            spans[axis] = span;
            strides[axis] = cubes;
            cubes *= span;
        }
        let count = u64::from(cubes) * u64::from(C::PER_CUBE);
        Complex {
            sizes,
            spans,
            strides,
            count,
            split: PhantomData,
        }
    }

    /// The number of cells, 0 where a size is 1. A complex has D sizes of at least 1 and at most 2^27 samples.
    pub fn cells(&self) -> u64
        ensures count { result ≡ cell_count C.KIND self.now }
        ensures axes { length self.now ≡ D }
        ensures some { All (λ n. 1 ≤ n) self.now }
        ensures samples { product self.now ≤ 2 ^ 27 }
        ensures few { result ≤ 2 ^ 32 }
    {
        self.count
    }

    /// Whether the cell is odd: a mirror image of the canonical cell. The cell is below `cells()`.
    pub fn odd(&self, cell: u64) -> bool
        requires { cell < cell_count C.KIND self.now }
        ensures { result ≡ is_odd_cell C.KIND self.now cell }
    {
        C::odd(self.rank_of(cell))
    }

    /// Corner `corner` of the cell, in half-units. The cell is below `cells()`, the corner below `CORNERS`.
    pub fn corner(&self, cell: u64, corner: u8) -> [u32; D]
        requires cell { cell < cell_count C.KIND self.now }
        requires corner { corner < C.CORNERS }
        ensures { result ≡ corner_of C.KIND self.now cell corner }
    {
        let cube = self.cube_of(cell);
        let offset = C::offset(self.rank_of(cell), corner);
        placed(&cube, &offset)
    }

    /// Edge `edge` of the cell. The cell is below `cells()`, the edge below `EDGES`.
    pub fn edge(&self, cell: u64, edge: u8) -> Edge<D>
        requires cell { cell < cell_count C.KIND self.now }
        requires edge { edge < C.EDGES }
        ensures low { result.low ≡ (edge_of C.KIND self.now cell edge).low }
        ensures high { result.high ≡ (edge_of C.KIND self.now cell edge).high }
    {
        let (first, second) = C::edge_ends(edge);
        let cube = self.cube_of(cell);
        let rank = self.rank_of(cell);
        let from = C::offset(rank, first);
        let to = C::offset(rank, second);
        edge_between(placed(&cube, &from), placed(&cube, &to))
    }

    /// The one other cell with a facet of the same points, or `None` where the facet lies on the outer boundary of
    /// the grid. The cell is below `cells()`, the facet below `FACETS`.
    pub fn neighbour(&self, cell: u64, facet: u8) -> Option<u64>
        requires cell { cell < cell_count C.KIND self.now }
        requires facet { facet < C.FACETS }
        ensures neighbour { (other : ℕ) → IsNeighbour C.KIND self.now cell facet other ↔ (result ≡ Some other) }
        ensures boundary { IsNone result ↔ OnOuterBoundary self.now (facet_points C.KIND self.now cell facet) }
    {
        let cube = self.cube_of(cell);
        let (shift, rank, _) = C::across(self.rank_of(cell), facet);
        match self.shifted_number(&cube, &shift) {
            Some(number) => Some(u64::from(number) * per_cube::<C, D>() + u64::from(rank)),
            None => None,
        }
    }

    // The number of the cube that is shifted from this one, or `None` where the shift leads out of the grid.
    fn shifted_number(&self, cube: &[u32; D], shift: &[i8; D]) -> Option<u32>
        requires inside { (i : ℕ) → i < D → slice_index cube.now i + 1 < slice_index self.now i }
        requires steps { (i : ℕ) → i < D → IsStep (slice_index_or shift.now i (pos 0)) }
        ensures number { IfSome result (λ number. IsShiftedCube D self.now cube.now shift.now number) }
        ensures none { IfNone result (LeavesCubes D self.now cube.now shift.now) }
    {
        let spans = &self.spans;
        let strides = &self.strides;
        let mut number = 0;
        for axis in 0..D {
            match step(cube[axis], shift[axis], spans[axis]) {
                Some(place) => number = add_places(number, place, strides[axis]),
                None => return None,
            }
        }
        Some(number)
    }

    // The rank of a cell in its cube.
    fn rank_of(&self, cell: u64) -> u32
        ensures rank { result ≡ rank_of C.KIND self.now cell }
        ensures below { result < C.PER_CUBE }
        ensures axes { length self.now ≡ D }
    {
        let _ = &self.sizes;
        (cell % per_cube::<C, D>()) as u32
    }

    // Where the cube of a cell stands.
    fn cube_of(&self, cell: u64) -> [u32; D]
        requires { cell < cell_count C.KIND self.now }
        ensures cube { result ≡ cube_of C.KIND self.now cell }
        ensures inside { (i : ℕ) → i < D → slice_index result i + 1 < slice_index self.now i }
        ensures few { (i : ℕ) → i < D → slice_index result i < 2 ^ 27 }
    {
        let spans = &self.spans;
        let mut rest = (cell / per_cube::<C, D>()) as u32;
        let mut cube = [0; D];
        for axis in 0..D {
            let span = spans[axis];
            cube[axis] = rest % span;
            rest /= span;
        }
        cube
    }
}

impl<C: Split<3>> Complex<C, 3> {
    /// The cells that have an edge, each once, in turn round it: consecutive ones share a facet that has the edge, and
    /// where the ring is closed, the last and the first one do. It is closed exactly where the ends of the edge do not
    /// lie on the outer boundary. The edge is one of a cell.
    ///
    /// No cell is searched for: the fixed list of cells round an edge of its way is moved to its place.
    pub fn ring(&self, edge: &Edge<3>) -> Ring
        requires edge { IsEdge C.KIND self.now (as_edge edge.now) }
        ensures ring { IsRing C.KIND self.now (as_edge edge.now) result.cells.items result.closed }
    {
        let _ = &self.sizes;
        let (cube, way) = middle(edge);
        self.arc(&cube, cells_round(C::KIND, &way))
    }

    // The cells at these places whose cubes are there, from the first gap on once round.
    fn arc(&self, cube: &[u32; 3], places: &[Place]) -> Ring
        requires fit { AreFit C.KIND self.now cube.now places.now }
        ensures arc { IsArc C.KIND self.now cube.now places.now result.cells.items result.closed }
    {
        let mut before = ArrayVec::<u64, 8>::new();
        let mut cells = ArrayVec::<u64, 8>::new();
        let mut closed = true;
        for place in places {
            match self.cell_at(cube, place) {
                Some(cell) if closed => before.push(cell),
                Some(cell) => cells.push(cell),
                None => closed = false,
            }
        }
        // There is room for all: they are at most as many as the places.
        let _ = cells.try_extend_from_slice(before.as_slice());
        Ring { cells, closed }
    }

    // The cell at this place, or `None` where its cube is missing.
    fn cell_at(&self, cube: &[u32; 3], place: &Place) -> Option<u64>
        requires rank { place.now.rank < C.PER_CUBE }
        ensures some { IfSome result (StandsAt C.KIND self.now cube.now place.now) }
        ensures none { IfNone result (IsMissing self.now cube.now place.now) }
    {
        let spans = &self.spans;
        let strides = &self.strides;
        let mut number = 0;
        for axis in 0..3 {
            match step_back(cube[axis], place.back[axis], spans[axis]) {
                Some(x) => number = add_places(number, x, strides[axis]),
                None => return None,
            }
        }
        Some(u64::from(number) * per_cube::<C, 3>() + u64::from(place.rank))
    }
}

// The cube this far back along an axis with this many cubes, or `None` where there is none.
fn step_back(x: u32, back: u32, span: u32) -> Option<u32>
    ensures some { IfSome result (λ at. (at < span) × (at + back ≡ x)) }
    ensures none { IfNone result (IsMissingIn (span + 1) x back) }
{
    if x < back || x - back >= span {
        None
    } else {
        Some(x - back)
    }
}

// The number of cells of a cube.
fn per_cube<C: Split<D>, const D: usize>() -> u64
    ensures count { result ≡ cells_per_cube C.KIND D }
    ensures ranks { result ≡ C.PER_CUBE }
    ensures some { 1 ≤ result }
    ensures few { result ≤ 24 }
{
    u64::from(C::PER_CUBE)
}

/// The point at an offset in a cube, both in half-units from the first corner of the grid and of the cube: a cube is
/// given by its place along each axis.
pub fn placed<const D: usize>(cube: &[u32; D], offset: &[u8; D]) -> [u32; D]
    requires few { (i : ℕ) → i < D → slice_index cube.now i < 2 ^ 27 }
    requires small { (i : ℕ) → slice_index offset.now i ≤ 2 }
    ensures { result ≡ point D (λ i. 2 * slice_index cube.now i + slice_index offset.now i) }
{
    let mut point = [0; D];
    for axis in 0..D {
        point[axis] = 2 * cube[axis] + offset[axis] as u32;
    }
    point
}

/// The edge with these ends, given in either order: the one that comes first, last coordinate first, is `low`.
pub fn edge_between<const D: usize>(p: [u32; D], q: [u32; D]) -> Edge<D>
    ensures low { result.low ≡ (edge_of_ends p.entry q.entry).low }
    ensures high { result.high ≡ (edge_of_ends p.entry q.entry).high }
{
    if is_before(&p, &q) {
        Edge { low: p, high: q }
    } else {
        Edge { low: q, high: p }
    }
}

// Whether p comes before q, last coordinate first.
fn is_before<const D: usize>(p: &[u32; D], q: &[u32; D]) -> bool
    ensures { result ≡ comes_first p.now q.now }
{
    let mut before = false;
    for axis in 0..D {
        before = is_before_by(before, p[axis], q[axis]);
    }
    before
}

// One coordinate more: it decides, unless it is the same.
fn is_before_by(before: bool, x: u32, y: u32) -> bool
    ensures { result ≡ (if x == y then before else nat_lt x y) }
{
    if x == y { before } else { x < y }
}

// One step along an axis with this many cubes, or `None` where it leads out of the grid.
fn step(x: u32, by: i8, span: u32) -> Option<u32>
    requires step { IsStep by }
    requires inside { x < span }
    ensures some { IfSome result (λ place. (place < span) × (place ≡ stepped x by) × (pos place ≡ pos x +ℤ by)) }
    ensures none { IfNone result (LeavesAxis (span + 1) x by) }
{
    if by < 0 {
        if x == 0 { None } else { Some(x - 1) }
    } else if by > 0 {
        if x + 1 == span { None } else { Some(x + 1) }
    } else {
        Some(x)
    }
}

// The number of a cube with one coordinate more.
fn add_places(number: u32, place: u32, stride: u32) -> u32
    requires { number + place * stride < 2 ^ 32 }
    ensures { result ≡ number + place * stride }
{
    number + place * stride
}
