ghost use Rattle.std.specs.Prelude.{◌≡◌, ◌^◌, ◌<◌, length, All, IfOk};
ghost use Rattle.iso_model.specs.Faces.{IsMesh};
ghost use Rattle.cut_laws.specs.Cuts.{IsModerate, AreDifferent, AreGlued, IsCutGlued, cut_of};
ghost use Rattle.mesh_slice.specs.Slices.{AreSimplices, Name};

use crate::late::late_flags;
use crate::links::all_links;
use crate::positions::all_positions;
use crate::triangles::all_triangles;
use iso_base::Memory;
use mesh_laws::Mesh;
use std::alloc::Global;
use table_check::OrderedChecked;

/// The mesh of triangles where the last coordinate of a mesh of tetrahedra passes a time, in millionths.
///
/// A vertex is late where its last coordinate is at least the time. The cut has one vertex on each edge of which one
/// end is late and the other is not, in ascending order of the numbers of the ends, at the time between them, rounded
/// from the end with the smaller number towards minus infinity. Simplex after simplex, its triangles are those of the
/// table's entry for the late corners, with the numbers of the simplex in ascending order as corners, turned where
/// that order is odd. An edge of a triangle lies in one triangle where its vertices lie on the edges of a face that one
/// simplex alone has, and else in two, oppositely.
///
/// The mesh has fewer than 2^24 simplices. Each has four different numbers of vertices, no two have the same four, and
/// each face is in one of them or, oppositely, in two. Coordinates and time are at most 2^52 in size.
pub fn cut_mesh(
    alloc: Global,
    mesh: &Mesh<4>,
    cut: &OrderedChecked,
    time: i64,
) -> Result<Mesh<3>, Memory>
    requires few { length mesh.now.simplices < 2 ^ 24 }
    requires simplices { AreSimplices (length mesh.now.vertices) mesh.now.simplices }
    requires different { AreDifferent mesh.now.simplices }
    requires glued { AreGlued mesh.now.simplices }
    requires coordinates { All (All IsModerate) mesh.now.vertices }
    requires time { IsModerate time }
    ensures cut { IfOk result (λ moment. moment ≡ cut_of mesh.now cut.now time) }
    ensures glued { IfOk result (λ moment. IsCutGlued mesh.now time moment.simplices) }
    ensures shape { IfOk result (IsMesh 3) }
    ensures vertices { IfOk result (λ moment. All (Name (length moment.vertices)) moment.simplices) }
{
    let late = late_flags(alloc, &mesh.vertices, time)?;
    let links = all_links(alloc, &mesh.simplices, &late)?;
    let vertices = all_positions(alloc, &mesh.vertices, &links, time)?;
    let simplices = all_triangles(alloc, &mesh.simplices, &late, &links, cut.table())?;
    Ok(Mesh {
        vertices,
        simplices,
    })
}
