//! A mesh in D dimensions.

use std::marker::Model;

/// Positions, and simplices over them: segments in two dimensions, triangles in three, tetrahedra in four.
///
/// A position has D whole numbers in millionths of a grid step. A simplex has D numbers of vertices, counted from 0,
/// whose order is its orientation. Contracts see both as lists.
#[derive(Drop)]
pub struct Mesh<const D: usize> {
    pub vertices: Vec<[i64; D]>,
    pub simplices: Vec<[u32; D]>,
}

impl<const D: usize> Model for Mesh<D> {
    ghost use Rattle.iso_model.specs.Faces.{Mesh};

    ghost Value = { Mesh };

    ghost view = { λ m. record { vertices = m.vertices.items; simplices = m.simplices.items } };
}
