//! What a file says of a mesh, and what is found in it.

use std::marker::Model;

/// A mesh of which the positions were passed over: the number of its vertices, and its simplices, each with the numbers
/// of D of them. Contracts see the simplices as a list.
#[derive(Drop)]
pub struct Off<const D: usize> {
    pub vertices: u32,
    pub simplices: Vec<[u32; D]>,
}

impl<const D: usize> Model for Off<D> {
    ghost use Rattle.mesh_audit.specs.OffMeshes.{Off};

    ghost Value = { Off };

    ghost view = { λ m. record { vertices = m.vertices; simplices = m.simplices.items } };
}

/// What is found in a mesh.
#[derive(Clone, Copy, Debug, PartialEq, Eq)]
pub enum Finding {
    /// The simplices are glued, and so many different faces are in one simplex alone.
    Clean {
        boundary: u64,
    },
    /// The least simplex that has a repeated number.
    Repeat {
        simplex: u32,
    },
    /// The least simplex that has a face which is neither in one simplex nor in two oppositely, the least place without
    /// which it is such a face, and the count and the sum of this face.
    Face {
        simplex: u32,
        place: u8,
        count: u64,
        sum: i64,
    },
    /// The least vertex that has triangles, but neither one cycle of them, of three or more, nor one path.
    Link {
        vertex: u32,
    },
}
