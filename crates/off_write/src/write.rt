//! Putting a mesh's text to a sink.

ghost use Rattle.std.specs.Prelude.{◌≡◌, ◌+◌, ◌≤◌, [], length, OnOk, OnErr, IfErr};
ghost use Rattle.std.specs.Io.KnownBytes.{Appends};
ghost use Rattle.iso_base.specs.Faults.{Rose, CountsFaults};
ghost use Rattle.iso_base.specs.Fronts.{AppendsFront};
ghost use Rattle.iso_formats.specs.MeshText.{mesh_text};
ghost use Rattle.off_write.specs.Pages.{page_size, AllButPage, PutsVertices, PutsSomeVertices, PutsSimplices, PutsSomeSimplices};
ghost use Rattle.iso_model.specs.Dimensions.{IsDimension};

use crate::lines::{push_head, push_simplex, push_vertex};
use crate::page::{PAGE_SIZE, Page};
use iso_base::{Failed, Sink, put_all};
use mesh_laws::Mesh;

/// The sink failed.
///
/// It holds the sink's count of faults after the failure.
#[derive(Clone, Copy, Debug, PartialEq, Eq, Drop)]
pub struct WriteFault(pub u64);

// No line of a mesh's text is longer.
const LINE_SIZE: usize = 128;

// Puts the page, and empties it.
fn put_page<O: Sink>(page: &mut Page, out: &mut O) -> Result<(), Failed>
    ensures faults { CountsFaults (O.faults out.old) (O.faults out.new) result }
    ensures all { OnOk result (Appends (O.bytes out.old) (O.bytes out.new) page.old) }
    ensures empty { OnOk result (page.new ≡ []) }
    ensures front { OnErr result (AppendsFront (O.bytes out.old) (O.bytes out.new) page.old) }
{
    put_all(out, page.text())?;
    page.clear();
    Ok(())
}

// Puts the page where less room than for a line is left in it, so that each piece but the last is nearly a page.
fn make_room<O: Sink>(page: &mut Page, out: &mut O) -> Result<(), Failed>
    ensures faults { CountsFaults (O.faults out.old) (O.faults out.new) result }
    ensures waits { OnOk result (AllButPage (O.bytes out.old) (O.bytes out.new) page.old page.new) }
    ensures room { OnOk result (length page.new + 128 ≤ page_size) }
    ensures front { OnErr result (AppendsFront (O.bytes out.old) (O.bytes out.new) page.old) }
{
    if page.len() > PAGE_SIZE - LINE_SIZE {
        put_page(page, out)?;
    }
    Ok(())
}

fn put_vertices<const D: usize, O: Sink>(
    vertices: &[[i64; D]],
    page: &mut Page,
    out: &mut O,
) -> Result<(), Failed>
    requires dimension { IsDimension D }
    ensures faults { CountsFaults (O.faults out.old) (O.faults out.new) result }
    ensures waits { OnOk result (PutsVertices (O.bytes out.old) (O.bytes out.new) page.old vertices.now page.new) }
    ensures front { OnErr result (PutsSomeVertices (O.bytes out.old) (O.bytes out.new) page.old vertices.now) }
{
    for vertex in vertices {
        make_room(page, out)?;
        push_vertex(page, vertex);
    }
    Ok(())
}

fn put_simplices<const D: usize, O: Sink>(
    simplices: &[[u32; D]],
    page: &mut Page,
    out: &mut O,
) -> Result<(), Failed>
    requires dimension { IsDimension D }
    ensures faults { CountsFaults (O.faults out.old) (O.faults out.new) result }
    ensures waits { OnOk result (PutsSimplices D (O.bytes out.old) (O.bytes out.new) page.old simplices.now page.new) }
    ensures front { OnErr result (PutsSomeSimplices D (O.bytes out.old) (O.bytes out.new) page.old simplices.now) }
{
    for simplex in simplices {
        make_room(page, out)?;
        push_simplex(page, simplex);
    }
    Ok(())
}

fn put_mesh<const D: usize, O: Sink>(mesh: &Mesh<D>, out: &mut O) -> Result<(), Failed>
    requires dimension { IsDimension D }
    ensures faults { CountsFaults (O.faults out.old) (O.faults out.new) result }
    ensures all { OnOk result (Appends (O.bytes out.old) (O.bytes out.new) (mesh_text D mesh.now)) }
    ensures front { OnErr result (AppendsFront (O.bytes out.old) (O.bytes out.new) (mesh_text D mesh.now)) }
{
    let vertices = mesh.vertices.as_slice();
    let simplices = mesh.simplices.as_slice();
    let mut page = Page::new();
    push_head(
        &mut page,
        D as u64,
        vertices.len() as u64,
        simplices.len() as u64,
    );
    put_vertices(vertices, &mut page, out)?;
    put_simplices(simplices, &mut page, out)?;
    put_page(&mut page, out)
}

/// Puts the text of a mesh of two, three or four dimensions.
///
/// The first line is `OFF` in three dimensions; else it is `nOFF`, and the second is the dimension. Then come the
/// number of vertices, the number of simplices and `0`, a line of coordinates with six decimals for each vertex, and a
/// line for each simplex: the dimension, and the numbers of its vertices from 0.
///
/// After a failure a front of the text was put.
pub fn write_mesh<const D: usize, O: Sink>(mesh: &Mesh<D>, out: &mut O) -> Result<(), WriteFault>
    requires dimension { IsDimension D }
    ensures text { OnOk result (Appends (O.bytes out.old) (O.bytes out.new) (mesh_text D mesh.now)) }
    ensures front { OnErr result (AppendsFront (O.bytes out.old) (O.bytes out.new) (mesh_text D mesh.now)) }
    ensures later { O.faults out.old ≤ O.faults out.new }
    ensures rose { OnErr result (Rose (O.faults out.old) (O.faults out.new)) }
    ensures counted { IfErr result (λ fault. fault.0 ≡ O.faults out.new) }
{
    match put_mesh(mesh, out) {
        Ok(()) => Ok(()),
        Err(failed) => Err(WriteFault(failed.count)),
    }
}
