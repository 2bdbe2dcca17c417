//! What the demonstration says of a mesh.

ghost use Rattle.std.specs.Prelude.{◌≡◌, ◌^◌, ◌<◌, ◌+◌, ◌≤◌, ◌++◌, true, length, codes, All, IfOk, OnOk, OnErr};
ghost use Rattle.std.specs.Io.KnownBytes.{Appends};
ghost use Rattle.lists.specs.Orders.{is_distinct};
ghost use Rattle.iso_model.specs.Dimensions.{IsDimension};
ghost use Rattle.iso_base.specs.Faults.{CountsFaults};
ghost use Rattle.iso_base.specs.Fronts.{AppendsFront};
ghost use Rattle.iso_formats.specs.Demo.{count_line};
ghost use Rattle.demo_grid.specs.MeshCounts.{counts_of, counts_text};

use arrayvec::ArrayString;
use iso_base::{Failed, Memory, Sink, put_all};
use mesh_laws::{Mesh, free_faces};
use std::alloc::Global;

/// The numbers that the demonstration says of a mesh.
#[derive(Clone, Copy, Debug, PartialEq, Eq, Drop)]
pub struct MeshCounts {
    /// The number of vertices.
    pub vertices: u64,
    /// The number of simplices.
    pub simplices: u64,
    /// The number of different faces that one simplex alone has.
    pub boundary: u64,
}

/// Counts the vertices, the simplices, and the faces that one simplex alone has. No simplex has a repeated number.
///
/// Takes time in proportion to `n log n` for `n` faces, and D numbers of memory for each face of a simplex.
pub fn count_mesh<const D: usize>(alloc: Global, mesh: &Mesh<D>) -> Result<MeshCounts, Memory>
    requires dimension { IsDimension D }
    requires distinct { All (λ w. is_distinct w ≡ true) mesh.now.simplices }
    ensures { IfOk result (λ counts. counts ≡ counts_of mesh.now) }
{
    let boundary = free_faces(alloc, &mesh.simplices)?;
    Ok(MeshCounts {
        vertices: mesh.vertices.len() as u64,
        simplices: mesh.simplices.len() as u64,
        boundary,
    })
}

/// Puts three lines: `vertices V`, `simplices S` and `boundary F`, with the numbers in decimal.
///
/// After a failure a front of the three lines was put.
pub fn put_counts<O: Sink>(counts: &MeshCounts, out: &mut O) -> Result<(), Failed>
    ensures faults { CountsFaults (O.faults out.old) (O.faults out.new) result }
    ensures all { OnOk result (Appends (O.bytes out.old) (O.bytes out.new) (counts_text counts.now)) }
    ensures front { OnErr result (AppendsFront (O.bytes out.old) (O.bytes out.new) (counts_text counts.now)) }
{
    put_all(out, text_of(counts).as_bytes())
}

// The three lines.
fn text_of(counts: &MeshCounts) -> ArrayString<128>
    ensures { result.bytes ≡ counts_text counts.now }
{
    let mut text = ArrayString::new();
    push_line(&mut text, "vertices", counts.vertices);
    push_line(&mut text, "simplices", counts.simplices);
    push_line(&mut text, "boundary", counts.boundary);
    text
}

// Appends a line of a word and a number.
fn push_line(text: &mut ArrayString<128>, word: &str, number: u64)
    requires { length text.old.bytes + length word.now + 22 ≤ 128 }
    ensures text { text.new.bytes ≡ text.old.bytes ++ count_line word.now number }
    ensures short { length text.new.bytes ≤ length text.old.bytes + length word.now + 22 }
{
    text.push_str(word);
    text.push_str(" ");
    let mut digits = itoa::Buffer::new();
    text.push_str(digits.format(number));
    text.push_str("\n");
}
