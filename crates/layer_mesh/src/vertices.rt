//! The vertices of a plane of edges.

ghost use Rattle.std.specs.Prelude.{◌≡◌, ◌+◌, ◌*◌, ◌/◌, ◌^◌, ◌%◌, ◌<◌, ◌≤◌, ◌==◌, ◌++◌, ◌∷◌, [], if◌then◌else◌};
ghost use Rattle.std.specs.Prelude.{length, slice_index, OnOk};
ghost use Rattle.iso_model.specs.Values.{Volume};
ghost use Rattle.grid_rows.specs.RowNumbers.{cube_rows, edge_rows, sample_rows};
ghost use Rattle.layer_scan.specs.PlanesOfCentres.{HasThreeAxes};

use crate::ends::{CentreEnds, SampleEnds};
use crate::rows::{RowEnds, add_row};
use grid_rows::{EdgePlane, GridRows};
use iso_base::Memory;

/// The slices of samples below and above the edges of a plane, one slice given twice where the plane lies in it; the
/// height of their midpoints along the last axis, in quarter-units; and the isovalue.
#[derive(Clone, Copy)]
pub struct Heights<'a> {
    pub lower: &'a [i64],
    pub upper: &'a [i64],
    pub height: u32,
    pub iso: i64,
}

ghost use Rattle.layer_mesh.specs.PlaneVertices.{TellsCentrePlane, TellsPlane, corner_slice, far_of, first_middle};
ghost use Rattle.layer_mesh.specs.PlaneVertices.{near_of, row_samples, vertices_at};

/// Adds the vertices on the edges of a plane, which join samples, in ascending order of their midpoints.
pub fn add_vertices<const D: usize>(
    vertices: &mut Vec<[i64; D]>,
    plane: &EdgePlane,
    rows: &GridRows,
    heights: &Heights<'_>,
) -> Result<(), Memory>
    requires told { (v : Volume) × TellsPlane v D rows.now plane.now heights.now }
    ensures vertices { (v : Volume) → TellsPlane v D rows.now plane.now heights.now
        → OnOk result (vertices.new.items ≡ vertices.old.items ++ vertices_at v heights.now.height) }
{
    for number in 0..rows.edge_rows() {
        let ends = RowEnds::Samples(sample_ends::<D>(rows, heights, number));
        add_row(vertices, plane.row(number), &ends)?;
    }
    Ok(())
}

/// Adds the vertices on the edges of a plane between the centres of pyramids and their corners in one of the two
/// slices, in ascending order of their midpoints.
pub fn add_centre_vertices<const D: usize>(
    vertices: &mut Vec<[i64; D]>,
    plane: &EdgePlane,
    rows: &GridRows,
    heights: &Heights<'_>,
) -> Result<(), Memory>
    requires told { (v : Volume) × TellsCentrePlane v D rows.now plane.now heights.now }
    ensures vertices { (v : Volume) → TellsCentrePlane v D rows.now plane.now heights.now
        → OnOk result (vertices.new.items ≡ vertices.old.items ++ vertices_at v heights.now.height) }
{
    for number in 0..2 * rows.cube_rows() {
        let ends = RowEnds::Centres(centre_ends::<D>(rows, heights, number));
        add_row(vertices, plane.row(number), &ends)?;
    }
    Ok(())
}

// What a row of edges that join samples has at its ends, and where it stands.
fn sample_ends<'a, const D: usize>(
    rows: &GridRows,
    heights: &Heights<'a>,
    number: usize,
) -> SampleEnds<'a, D>
    requires axes { D ≤ 4 }
    requires number { number < edge_rows rows.now }
    requires lower { length heights.now.lower.now ≡ sample_rows rows.now * rows.now.length }
    requires upper { length heights.now.upper.now ≡ sample_rows rows.now * rows.now.length }
    ensures near { result.near.now ≡ row_samples rows.now heights.now.lower.now (near_of rows.now number) }
    ensures far { result.far.now ≡ row_samples rows.now heights.now.upper.now (far_of rows.now number) }
    ensures row { result.row ≡ first_middle rows.now D heights.now.height number }
    ensures iso { result.iso ≡ heights.now.iso }
{
    let row = rows.edge_row(number);
    SampleEnds {
        near: row_samples(rows, heights.lower, row.near),
        far: row_samples(rows, heights.upper, row.far),
        row: first_middle(rows, heights.height, number),
        iso: heights.iso,
    }
}

// What a row of edges to centres has at its ends, and where it stands. Each row of cubes has two such rows: to its
// corners in its near row of samples, and to those in the next one.
fn centre_ends<'a, const D: usize>(
    rows: &GridRows,
    heights: &Heights<'a>,
    number: usize,
) -> CentreEnds<'a, D>
    requires axes { D ≡ 3 }
    requires three { HasThreeAxes rows.now }
    requires number { number < 2 * cube_rows rows.now }
    requires lower { length heights.now.lower.now ≡ sample_rows rows.now * rows.now.length }
    requires upper { length heights.now.upper.now ≡ sample_rows rows.now * rows.now.length }
    ensures corners { result.corners.now ≡ row_samples rows.now (corner_slice heights.now) ((number + 1) / 2) }
    ensures above { result.above ≡ (heights.now.height % 4 == 3) }
    ensures slices { (result.lower.now ≡ heights.now.lower.now) × (result.upper.now ≡ heights.now.upper.now) }
    ensures near { result.near ≡ number / 2 * rows.now.length }
    ensures far { result.far ≡ (number / 2 + 1) * rows.now.length }
    ensures row { result.row ≡ 0 ∷ (2 * number + 1) ∷ heights.now.height ∷ [] }
    ensures iso { result.iso ≡ heights.now.iso }
{
    CentreEnds {
        corners: row_samples(rows, corner_slice(heights), (number + 1) / 2),
        above: heights.height % 4 == 3,
        lower: heights.lower,
        upper: heights.upper,
        near: number / 2 * rows.length,
        far: (number / 2 + 1) * rows.length,
        row: centre_middle(number, heights.height),
        iso: heights.iso,
    }
}

// The slice that has the corners at the ends of edges to centres.
fn corner_slice<'a>(heights: &Heights<'a>) -> &'a [i64]
    ensures { result.now ≡ corner_slice heights.now }
{
    if heights.height % 4 == 3 {
        heights.upper
    } else {
        heights.lower
    }
}

// The point of a row of edges to centres whose first coordinate is 0, in a grid of three axes.
fn centre_middle<const D: usize>(number: usize, height: u32) -> [u32; D]
    requires axes { D ≡ 3 }
    requires number { number < 2 ^ 29 }
    ensures { result ≡ 0 ∷ (2 * number + 1) ∷ height ∷ [] }
{
    let mut middle = [0; D];
    middle[1] = 2 * number as u32 + 1;
    middle[2] = height;
    middle
}

// The samples of a row of a slice.
fn row_samples<'a>(rows: &GridRows, slice: &'a [i64], number: usize) -> &'a [i64]
    requires number { number < sample_rows rows.now }
    requires slice { length slice.now ≡ sample_rows rows.now * rows.now.length }
    ensures { result.now ≡ row_samples rows.now slice.now number }
{
    let first = number * rows.length;
    &slice[first..first + rows.length]
}

// The first midpoint of a row of edges.
fn first_middle<const D: usize>(rows: &GridRows, height: u32, number: usize) -> [u32; D]
    requires axes { D ≤ 4 }
    requires number { number < edge_rows rows.now }
    ensures { result ≡ first_middle rows.now D height number }
{
    let (i, j) = rows.edge_place(number);
    let places = [0, 2 * i as u32, 2 * j as u32];
    let mut middle = [0; D];
    for axis in 0..D {
        middle[axis] = coordinate(&places, height, axis, D);
    }
    middle
}

// The coordinate along an axis of the first midpoint of a row of edges, in a grid of so many axes.
fn coordinate(places: &[u32; 3], height: u32, axis: usize, axes: usize) -> u32
    requires { (axis < axes) × (axes ≤ 4) }
    ensures { result ≡ (if axis + 1 == axes then height else slice_index places.now axis) }
{
    if axis + 1 == axes {
        height
    } else {
        places[axis]
    }
}
