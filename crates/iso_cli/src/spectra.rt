//! How many vertices the mesh of a grid has at each isovalue of a range.

ghost use Rattle.std.specs.Prelude.{◌≡◌, ◌^◌, ◌≤◌, flat_map, length, slice_index, unsigned_abs, None, IfOk, IfErr};
ghost use Rattle.iso_base.specs.Files.{bytes_of};
ghost use Rattle.iso_base.specs.Shelves.{IsSameShelf};
ghost use Rattle.lists.specs.Orders.{numbers};
ghost use Rattle.iso_model.specs.Cells.{HasDimension};
ghost use Rattle.iso_model.specs.Values.{IsRegularGrid};
ghost use Rattle.iso_commands.specs.Commands.{IsRange};
ghost use Rattle.edge_spectrum.specs.Spectrum.{iso_after, spectrum_of};
ghost use Rattle.iso_cli.specs.Axes.{axes_needed};
ghost use Rattle.iso_cli.specs.Outputs.{LeavesOutput};
ghost use Rattle.iso_cli.specs.Refusals.{IsRefusedFile, IsRefusedGrid};
ghost use Rattle.iso_cli.specs.Rests.{LeavesGridFile};
ghost use Rattle.iso_cli.specs.Shelves.{BlamesShelf, FailsOnlyFor};
ghost use Rattle.iso_cli.specs.Spectra.{HoldsGrid, count_line, spectrum_text};
ghost use Rattle.iso_cli.specs.Statuses.{IfDecided, IsOfGrid, IsOfPutting};

use crate::files::{Axes, read_grid};
use crate::output::put_bytes;
use crate::status::Status;
use arrayvec::ArrayString;
use cell_lattice::{CubeCell, Kind, PyramidCell, SimplexCell};
use edge_spectrum::spectrum;
use grid_split::{Complex, Split};
use iso_base::{Memory, Shelf, Sink};
use nrrd_raw::Grid;
use std::alloc::Global;

/// Reads the grid of a file, which is to have a dimension that cells of a kind have.
pub fn read_grid_for<S: Shelf>(
    alloc: Global,
    shelf: &mut S,
    name: &str,
    kind: Kind,
) -> Result<Grid, Status>
    ensures shelf { IsSameShelf S.faults S.files S.sound shelf.old shelf.new }
    ensures blamed { IfErr result (λ status. BlamesShelf status (S.faults shelf.old) (S.faults shelf.new)) }
    ensures missing { FailsOnlyFor (bytes_of (S.files shelf.old) name.now ≡ None) (S.sound shelf.old) result }
    ensures kinds { IfErr result IsOfGrid }
    ensures refused { IfDecided result (IsRefusedFile (S.files shelf.old) name.now (IsRefusedGrid (axes_needed kind))) }
    ensures left { IfErr result (LeavesGridFile (S.files shelf.old) name.now (axes_needed kind) (S.rest shelf.new)) }
    ensures held { IfOk result (HoldsGrid (S.files shelf.old) name.now kind) }
    ensures regular { IfOk result IsRegularGrid }
{
    read_grid(alloc, shelf, name, Axes::Of(kind))
}

/// Puts a line for each isovalue from one up to another, with the number of vertices that the mesh of the grid has
/// there.
pub fn put_spectrum<O: Sink>(
    alloc: Global,
    kind: Kind,
    grid: &Grid,
    from: i64,
    to: i64,
    out: &mut O,
) -> Status
    requires regular { IsRegularGrid grid.now }
    requires fits { HasDimension kind (length grid.now.sizes) }
    requires from { unsigned_abs from ≤ 2 ^ 40 }
    requires to { unsigned_abs to ≤ 2 ^ 40 }
    requires range { IsRange from to }
    ensures kinds { IsOfPutting result }
    ensures output { LeavesOutput O.faults O.bytes
        (λ text. text ≡ spectrum_text kind grid.now from to) result out.old out.new }
{
    match text_of(alloc, kind, grid, from, to) {
        Ok(bytes) => put_bytes(bytes.as_slice(), out),
        Err(Memory) => Status::Memory,
    }
}

// The lines.
fn text_of(alloc: Global, kind: Kind, grid: &Grid, from: i64, to: i64) -> Result<Vec<u8>, Memory>
    requires regular { IsRegularGrid grid.now }
    requires fits { HasDimension kind (length grid.now.sizes) }
    requires from { unsigned_abs from ≤ 2 ^ 40 }
    requires to { unsigned_abs to ≤ 2 ^ 40 }
    requires range { IsRange from to }
    ensures { IfOk result (λ bytes. bytes.items ≡ spectrum_text kind grid.now from to) }
{
    let counts = counts_of(alloc, kind, grid.dims, grid, from, to)?;
    lines(alloc, from, counts.as_slice())
}

// The number of vertices at each isovalue, where the grid has so many axes.
fn counts_of(
    alloc: Global,
    kind: Kind,
    dims: u8,
    grid: &Grid,
    from: i64,
    to: i64,
) -> Result<Vec<u64>, Memory>
    requires regular { IsRegularGrid grid.now }
    requires axes { length grid.now.sizes ≡ dims }
    requires fits { HasDimension kind dims }
    requires from { unsigned_abs from ≤ 2 ^ 40 }
    requires to { unsigned_abs to ≤ 2 ^ 40 }
    requires range { IsRange from to }
    ensures { IfOk result (λ counts. counts.items ≡ spectrum_of kind grid.now from to) }
{
    match (kind, dims) {
        (Kind::Cube, 2) => counts_by::<CubeCell<2>, 2>(alloc, grid, from, to),
        (Kind::Cube, 3) => counts_by::<CubeCell<3>, 3>(alloc, grid, from, to),
        (Kind::Cube, 4) => counts_by::<CubeCell<4>, 4>(alloc, grid, from, to),
        (Kind::Simplex, 2) => counts_by::<SimplexCell<2>, 2>(alloc, grid, from, to),
        (Kind::Simplex, 3) => counts_by::<SimplexCell<3>, 3>(alloc, grid, from, to),
        (Kind::Simplex, 4) => counts_by::<SimplexCell<4>, 4>(alloc, grid, from, to),
        (Kind::Pyramid, 3) => counts_by::<PyramidCell, 3>(alloc, grid, from, to),
        _ => unreachable!(),
    }
}

// The same, where the cells are known.
fn counts_by<C: Split<D>, const D: usize>(
    alloc: Global,
    grid: &Grid,
    from: i64,
    to: i64,
) -> Result<Vec<u64>, Memory>
    requires regular { IsRegularGrid grid.now }
    requires axes { length grid.now.sizes ≡ D }
    requires from { unsigned_abs from ≤ 2 ^ 40 }
    requires to { unsigned_abs to ≤ 2 ^ 40 }
    requires range { IsRange from to }
    ensures { IfOk result (λ counts. counts.items ≡ spectrum_of C.KIND grid.now from to) }
{
    let complex = Complex::<C, D>::new(sizes_of(grid));
    spectrum(alloc, &complex, grid, from, to)
}

// The sizes of a grid of D axes.
fn sizes_of<const D: usize>(grid: &Grid) -> [u64; D]
    requires { length grid.now.sizes ≡ D }
    ensures { result ≡ grid.now.sizes }
{
    let stated = &grid.sizes[..D];
    let mut sizes = [1; D];
    for axis in 0..D {
        sizes[axis] = stated[axis];
    }
    sizes
}

// A line for each of the counts, which are those of the isovalues from one on.
fn lines(alloc: Global, from: i64, counts: &[u64]) -> Result<Vec<u8>, Memory>
    requires from { unsigned_abs from ≤ 2 ^ 40 }
    requires few { length counts.now ≤ 65536 }
    ensures { IfOk result (λ bytes. bytes.items
        ≡ flat_map (λ i. count_line (iso_after from i) (slice_index counts.now i)) (numbers (length counts.now))) }
{
    let mut bytes = Vec::new(alloc);
    for i in 0..counts.len() {
        let line = line_of(from + i as i64, counts[i]);
        let Ok(()) = bytes.extend_from_slice(line.as_str().as_bytes()) else {
            return Err(Memory);
        };
    }
    Ok(bytes)
}

// The line of an isovalue with a count.
fn line_of(iso: i64, count: u64) -> ArrayString<64>
    ensures { result.bytes ≡ count_line iso count }
{
    let mut line = ArrayString::new();
    let mut digits = itoa::Buffer::new();
    line.push_str(digits.format(iso));
    line.push_str(" ");
    let mut digits = itoa::Buffer::new();
    line.push_str(digits.format(count));
    line.push_str("\n");
    line
}
