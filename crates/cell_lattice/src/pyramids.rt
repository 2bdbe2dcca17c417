ghost use Rattle.std.specs.Prelude.{ℕ, ◌<◌, refl};
ghost use Rattle.std.proofs.Common.{rules, inl, inr};
ghost use Rattle.iso_model.specs.declared.Kind.{Kind};
ghost use Rattle.cell_lattice.specs.CellLemmas.{counted_seams, own_edges, ordered_ends, meets_corners, keeps_edges, two_facets, basis_spans};

use crate::{Cell, Kind, Seam};

/// A pyramid over a square, with the centre of the square's cube as its corner 4.
#[derive(Clone, Copy)]
pub struct PyramidCell;

impl Cell<3> for PyramidCell {
    ghost KIND = { Kind.Pyramid };

    ghost CORNERS = { 5 };

    ghost EDGES = { 8 };

    ghost FACETS = { 5 };

    ghost SEAMS = { 11 };

    const KIND: Kind = Kind::Pyramid;

    const CORNERS: usize = 5;

    const EDGES: usize = 8;

    const FACETS: usize = 5;

    const SEAMS: usize = 11;

    ghost is_dimension = { Prim.search rules };

    ghost has_dimension = { Prim.search rules };

    ghost corners = { refl };

    ghost edges = { refl };

    ghost facets = { refl };

    ghost seam_count = { counted_seams Kind.Pyramid 3 (inr (inl refl)) refl };

    ghost ordered_ends = { ordered_ends Kind.Pyramid 3 (inr (inl refl)) refl };

    ghost own_edges = { own_edges Kind.Pyramid 3 (inr (inl refl)) refl };

    ghost meets_corners = { meets_corners Kind.Pyramid 3 (inr (inl refl)) refl };

    ghost keeps_edges = { keeps_edges Kind.Pyramid 3 (inr (inl refl)) refl };

    ghost two_facets = { two_facets Kind.Pyramid 3 };

    ghost basis_spans = { basis_spans Kind.Pyramid 3 (inr (inl refl)) refl };

    fn corner_at(corner: u8) -> [i32; 3] {
        POINTS[corner as usize]
    }

    fn edge_ends(edge: u8) -> (u8, u8) {
        ENDS[edge as usize]
    }

    fn facet_mask(facet: u8) -> u32 {
        CORNERS_OF_FACETS[facet as usize]
    }

    fn facet_edges(facet: u8) -> u32 {
        EDGES_OF_FACETS[facet as usize]
    }

    fn corner_basis(corner: u8) -> [u8; 3] {
        BASES[corner as usize]
    }

    fn seam(number: u8) -> Seam {
        SEAMS[number as usize]
    }
}

const POINTS: [[i32; 3]; 5] = [[0, 0, 0], [2, 0, 0], [0, 2, 0], [2, 2, 0], [1, 1, 1]];

const ENDS: [(u8, u8); 8] = [
    (0, 1),
    (0, 2),
    (1, 3),
    (2, 3),
    (0, 4),
    (1, 4),
    (2, 4),
    (3, 4),
];

const CORNERS_OF_FACETS: [u32; 5] = [0xf, 0x15, 0x1a, 0x13, 0x1c];

const EDGES_OF_FACETS: [u32; 5] = [0xf, 0x52, 0xa4, 0x31, 0xc8];

const BASES: [[u8; 3]; 5] = [[0, 1, 4], [0, 2, 5], [1, 3, 6], [2, 3, 7], [4, 5, 6]];

const SEAMS: [Seam; 11] = [
    Seam {
        facet: 0,
        other: 0,
        size: 4,
        map: [0, 1, 2, 3, 0, 0, 0, 0],
        same: false,
    },
    Seam {
        facet: 1,
        other: 1,
        size: 3,
        map: [0, 2, 4, 0, 0, 0, 0, 0],
        same: false,
    },
    Seam {
        facet: 1,
        other: 2,
        size: 3,
        map: [1, 3, 4, 0, 0, 0, 0, 0],
        same: true,
    },
    Seam {
        facet: 2,
        other: 2,
        size: 3,
        map: [1, 3, 4, 0, 0, 0, 0, 0],
        same: false,
    },
    Seam {
        facet: 3,
        other: 1,
        size: 3,
        map: [0, 2, 4, 0, 0, 0, 0, 0],
        same: true,
    },
    Seam {
        facet: 3,
        other: 2,
        size: 3,
        map: [1, 3, 4, 0, 0, 0, 0, 0],
        same: false,
    },
    Seam {
        facet: 4,
        other: 1,
        size: 3,
        map: [0, 2, 4, 0, 0, 0, 0, 0],
        same: false,
    },
    Seam {
        facet: 4,
        other: 2,
        size: 3,
        map: [1, 3, 4, 0, 0, 0, 0, 0],
        same: true,
    },
    Seam {
        facet: 3,
        other: 3,
        size: 3,
        map: [0, 1, 4, 0, 0, 0, 0, 0],
        same: false,
    },
    Seam {
        facet: 3,
        other: 4,
        size: 3,
        map: [2, 3, 4, 0, 0, 0, 0, 0],
        same: true,
    },
    Seam {
        facet: 4,
        other: 4,
        size: 3,
        map: [2, 3, 4, 0, 0, 0, 0, 0],
        same: false,
    },
];
