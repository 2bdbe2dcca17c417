//! The walk round a vertex of a mesh of triangles.

ghost use Rattle.std.specs.Prelude.{◌≡◌, ◌^◌, ◌<◌, ◌++◌, ℕ, [], length, IfOk, OnOk};
ghost use Rattle.iso_model.specs.Walks.{turned, walk};
ghost use Rattle.mesh_laws.specs.Rounds.{AreCornersAt, corner_of};

use crate::rounds::{Corner, WalkRoom, push, walk_round};
use iso_base::Memory;
use std::alloc::Global;
use std::marker::Model;

/// A walk round a vertex: the numbers of the triangles that it meets, in their order; whether it closes, which is
/// whether it would meet the first of them again; and whether it met each triangle at the vertex.
///
/// Contracts see the triangles as a list.
#[derive(Drop)]
pub struct Trail {
    pub order: Vec<u32>,
    pub closed: bool,
    pub whole: bool,
}

impl Model for Trail {
    ghost use Rattle.iso_model.specs.Walks.{Trail};

    ghost Value = { Trail };

    ghost view = { λ t. record { order = t.order.items; closed = t.closed; whole = t.whole } };
}

impl Trail {
    /// The walk where there are no triangles: it meets none, and is whole.
    pub fn new(alloc: Global) -> Trail
        ensures { (vertex : ℕ) → result ≡ walk [] vertex }
    {
        Trail {
            order: Vec::new(alloc),
            closed: false,
            whole: true,
        }
    }
}

/// The walk round a vertex of a mesh of triangles.
///
/// A triangle at the vertex k is turned cyclically so that it reads (k, p, q). The walk starts at the first triangle
/// whose p is the q of none, or at the first one where there is no such triangle. From a triangle it goes on to the
/// first one whose p is the present q. It ends where there is none, or where that one was met before, and it closes
/// where that one is the first of the walk.
pub fn walk(alloc: Global, simplices: &[[u32; 3]], vertex: u32) -> Result<Trail, Memory>
    requires { length simplices.now < 2 ^ 32 }
    ensures { IfOk result (λ trail. trail ≡ walk simplices.now vertex) }
{
    let mut corners = Vec::new(alloc);
    gather_corners(simplices, vertex, &mut corners)?;
    let mut trail = Trail::new(alloc);
    walk_round(&corners, &mut WalkRoom::new(alloc), &mut trail)?;
    Ok(trail)
}

// Gathers the triangles at a vertex.
fn gather_corners(
    simplices: &[[u32; 3]],
    vertex: u32,
    corners: &mut Vec<Corner>,
) -> Result<(), Memory>
    requires { length simplices.now < 2 ^ 32 }
    ensures { OnOk result (AreCornersAt simplices.now vertex corners.new.items) }
{
    corners.clear();
    for (number, simplex) in simplices.iter().enumerate() {
        add_corner(number as u32, simplex, vertex, corners)?;
    }
    Ok(())
}

// Adds the triangle of a number, where it is at the vertex.
fn add_corner(
    number: u32,
    simplex: &[u32; 3],
    vertex: u32,
    corners: &mut Vec<Corner>,
) -> Result<(), Memory>
    ensures { OnOk result (corners.new.items ≡ corners.old.items ++ corner_of number (turned vertex simplex.now)) }
{
    match turned(simplex, vertex) {
        Some((p, q)) => {
            let corner = Corner {
                triangle: number,
                p,
                q,
            };
            push(corners, corner)
        }
        None => Ok(()),
    }
}

/// A triangle at a vertex k, turned cyclically so that it reads (k, p, q), as p and q; `None` where it is not at k.
pub fn turned(triangle: &[u32; 3], vertex: u32) -> Option<(u32, u32)>
    ensures { result ≡ turned vertex triangle.now }
{
    let [a, b, c] = *triangle;
    if a == vertex {
        Some((b, c))
    } else if b == vertex {
        Some((c, a))
    } else if c == vertex {
        Some((a, b))
    } else {
        None
    }
}
