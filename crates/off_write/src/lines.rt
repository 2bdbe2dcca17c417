//! The lines of a mesh's text.

ghost use Rattle.std.specs.Prelude.{◌≡◌, ◌+◌, ◌*◌, ◌≤◌, ◌∷◌, ◌++◌, length, map, flat_map};
ghost use Rattle.std.specs.Fmt.{decimal};
ghost use Rattle.iso_formats.specs.MeshText.{line, millionths};
ghost use Rattle.off_write.specs.Pages.{page_size, format_lines, head};
ghost use Rattle.iso_model.specs.Dimensions.{IsDimension};

use crate::page::Page;

// Coordinates with a space before each.
fn push_rest(page: &mut Page, coordinates: &[i64])
    requires { length page.old + 29 * length coordinates.now ≤ page_size }
    ensures text { page.new ≡ page.old ++ flat_map (λ c. 32 ∷ millionths c) coordinates.now }
    ensures short { length page.new ≤ length page.old + 29 * length coordinates.now }
{
    for coordinate in coordinates {
        page.push(b' ');
        page.push_coordinate(*coordinate);
    }
}

/// The line of a vertex: its coordinates.
pub(crate) fn push_vertex<const D: usize>(page: &mut Page, vertex: &[i64; D])
    requires dimension { IsDimension D }
    requires room { length page.old + 128 ≤ page_size }
    ensures text { page.new ≡ page.old ++ line (map millionths vertex.now) }
{
    let coordinates = &vertex[..];
    page.push_coordinate(coordinates[0]);
    push_rest(page, &coordinates[1..]);
    page.push(b'\n');
}

/// The line of a simplex: the dimension, and the numbers of its vertices.
pub(crate) fn push_simplex<const D: usize>(page: &mut Page, simplex: &[u32; D])
    requires dimension { IsDimension D }
    requires room { length page.old + 128 ≤ page_size }
    ensures text { page.new ≡ page.old ++ line (decimal D ∷ map decimal simplex.now) }
{
    page.push_number(D as u64);
    for vertex in simplex {
        page.push(b' ');
        page.push_number(u64::from(*vertex));
    }
    page.push(b'\n');
}

// The first line, and the dimension on a line of its own where it is not three.
fn push_format(page: &mut Page, dimension: u64)
    requires room { length page.old + 27 ≤ page_size }
    ensures text { page.new ≡ page.old ++ format_lines dimension }
    ensures short { length page.new ≤ length page.old + 27 }
{
    if dimension == 3 {
        page.push_all(b"OFF\n");
    } else {
        page.push_all(b"nOFF\n");
        page.push_number(dimension);
        page.push(b'\n');
    }
}

/// The first lines: the name of the format, the dimension where it is not three, and the counts.
pub(crate) fn push_head(page: &mut Page, dimension: u64, vertices: u64, simplices: u64)
    requires room { length page.old + 128 ≤ page_size }
    ensures text { page.new ≡ page.old ++ head dimension vertices simplices }
{
    push_format(page, dimension);
    page.push_number(vertices);
    page.push(b' ');
    page.push_number(simplices);
    page.push_all(b" 0\n");
}
