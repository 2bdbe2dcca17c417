ghost use Rattle.std.specs.Prelude.{◌≡◌, ℕ, ◌+◌, ◌-◌, ◌*◌, ◌/◌, ◌^◌, ◌<◌, ◌≤◌, length, map, slice_index, pos, refl};
ghost use Rattle.std.proofs.Common.{inl, inr, rules};
ghost use Rattle.iso_model.specs.declared.Kind.{Kind};
ghost use Rattle.iso_model.specs.Cells.{corner_count, edge_count, facet_count, corner_point, edge_ends, facet_corners, facet_edges, corner_basis, corner_in_facet, edge_in_facet};
ghost use Rattle.iso_model.specs.Dimensions.{IsDimension};
ghost use Rattle.cell_lattice.specs.SeamTables.{seam_at, met_corners, padded};
ghost use Rattle.cell_lattice.specs.CellLemmas.{counted_seams, own_edges, ordered_ends, meets_corners, keeps_edges, two_facets, basis_spans};
ghost use Rattle.lists.specs.Bits.{is_set, set_number};
ghost use Rattle.cell_lattice.specs.FacetSets.{HasFacetCorners, HasFacetEdges};

use crate::{Cell, Kind, Seam};

/// A cube of D axes: corner k has the coordinate 2 in axis i where bit i of k is set, else 0.
#[derive(Clone, Copy)]
pub struct CubeCell<const D: usize>;

impl Cell<2> for CubeCell<2> {
    ghost KIND = { Kind.Cube };

    ghost CORNERS = { 4 };

    ghost EDGES = { 4 };

    ghost FACETS = { 4 };

    ghost SEAMS = { 2 };

    const KIND: Kind = Kind::Cube;

    const CORNERS: usize = 4;

    const EDGES: usize = 4;

    const FACETS: usize = 4;

    const SEAMS: usize = 2;

    ghost is_dimension = { inl refl };

    ghost has_dimension = { Prim.search rules };

    ghost corners = { refl };

    ghost edges = { refl };

    ghost facets = { refl };

    ghost seam_count = { refl };

    ghost ordered_ends = { ordered_ends Kind.Cube 2 (inl refl) (Prim.search rules) };

    ghost own_edges = { own_edges Kind.Cube 2 (inl refl) (Prim.search rules) };

    ghost meets_corners = { meets_corners Kind.Cube 2 (inl refl) (Prim.search rules) };

    ghost keeps_edges = { keeps_edges Kind.Cube 2 (inl refl) (Prim.search rules) };

    ghost two_facets = { two_facets Kind.Cube 2 };

    ghost basis_spans = { basis_spans Kind.Cube 2 (inl refl) (Prim.search rules) };

    fn corner_at(corner: u8) -> [i32; 2] {
        cube_corner(corner)
    }

    fn edge_ends(edge: u8) -> (u8, u8) {
        cube_edge::<2>(edge)
    }

    fn facet_mask(facet: u8) -> u32 {
        cube_facet::<2>(facet)
    }

    fn facet_edges(facet: u8) -> u32 {
        edges_of_cube_facet::<2>(facet)
    }

    fn corner_basis(corner: u8) -> [u8; 2] {
        cube_basis(corner)
    }

    fn seam(number: u8) -> Seam {
        cube_seam::<2>(number)
    }
}

impl Cell<3> for CubeCell<3> {
    ghost KIND = { Kind.Cube };

    ghost CORNERS = { 8 };

    ghost EDGES = { 12 };

    ghost FACETS = { 6 };

    ghost SEAMS = { 3 };

    const KIND: Kind = Kind::Cube;

    const CORNERS: usize = 8;

    const EDGES: usize = 12;

    const FACETS: usize = 6;

    const SEAMS: usize = 3;

    ghost is_dimension = { inr (inl refl) };

    ghost has_dimension = { Prim.search rules };

    ghost corners = { refl };

    ghost edges = { refl };

    ghost facets = { refl };

    ghost seam_count = { refl };

    ghost ordered_ends = { ordered_ends Kind.Cube 3 (inr (inl refl)) (Prim.search rules) };

    ghost own_edges = { own_edges Kind.Cube 3 (inr (inl refl)) (Prim.search rules) };

    ghost meets_corners = { meets_corners Kind.Cube 3 (inr (inl refl)) (Prim.search rules) };

    ghost keeps_edges = { keeps_edges Kind.Cube 3 (inr (inl refl)) (Prim.search rules) };

    ghost two_facets = { two_facets Kind.Cube 3 };

    ghost basis_spans = { basis_spans Kind.Cube 3 (inr (inl refl)) (Prim.search rules) };

    fn corner_at(corner: u8) -> [i32; 3] {
        cube_corner(corner)
    }

    fn edge_ends(edge: u8) -> (u8, u8) {
        cube_edge::<3>(edge)
    }

    fn facet_mask(facet: u8) -> u32 {
        cube_facet::<3>(facet)
    }

    fn facet_edges(facet: u8) -> u32 {
        edges_of_cube_facet::<3>(facet)
    }

    fn corner_basis(corner: u8) -> [u8; 3] {
        cube_basis(corner)
    }

    fn seam(number: u8) -> Seam {
        cube_seam::<3>(number)
    }
}

impl Cell<4> for CubeCell<4> {
    ghost KIND = { Kind.Cube };

    ghost CORNERS = { 16 };

    ghost EDGES = { 32 };

    ghost FACETS = { 8 };

    ghost SEAMS = { 4 };

    const KIND: Kind = Kind::Cube;

    const CORNERS: usize = 16;

    const EDGES: usize = 32;

    const FACETS: usize = 8;

    const SEAMS: usize = 4;

    ghost is_dimension = { inr (inr refl) };

    ghost has_dimension = { Prim.search rules };

    ghost corners = { refl };

    ghost edges = { refl };

    ghost facets = { refl };

    ghost seam_count = { refl };

    ghost ordered_ends = { ordered_ends Kind.Cube 4 (inr (inr refl)) (Prim.search rules) };

    ghost own_edges = { own_edges Kind.Cube 4 (inr (inr refl)) (Prim.search rules) };

    ghost meets_corners = { meets_corners Kind.Cube 4 (inr (inr refl)) (Prim.search rules) };

    ghost keeps_edges = { keeps_edges Kind.Cube 4 (inr (inr refl)) (Prim.search rules) };

    ghost two_facets = { two_facets Kind.Cube 4 };

    ghost basis_spans = { basis_spans Kind.Cube 4 (inr (inr refl)) (Prim.search rules) };

    fn corner_at(corner: u8) -> [i32; 4] {
        cube_corner(corner)
    }

    fn edge_ends(edge: u8) -> (u8, u8) {
        cube_edge::<4>(edge)
    }

    fn facet_mask(facet: u8) -> u32 {
        cube_facet::<4>(facet)
    }

    fn facet_edges(facet: u8) -> u32 {
        edges_of_cube_facet::<4>(facet)
    }

    fn corner_basis(corner: u8) -> [u8; 4] {
        cube_basis(corner)
    }

    fn seam(number: u8) -> Seam {
        cube_seam::<4>(number)
    }
}

// ---- the answers in any of the three dimensions

fn cube_corner<const D: usize>(corner: u8) -> [i32; D]
    requires dimension { IsDimension D }
    requires corner { corner < corner_count Kind.Cube D }
    ensures { result ≡ map pos (corner_point Kind.Cube D corner) }
{
    let mut point = [0; D];
    for axis in 0..D {
        point[axis] = 2 * i32::from((corner >> axis) & 1);
    }
    point
}

/// The two corners of an edge of the cube of D axes, the smaller first: `edge_ends` of its cell, in any dimension.
pub fn cube_edge<const D: usize>(edge: u8) -> (u8, u8)
    requires dimension { IsDimension D }
    requires edge { edge < edge_count Kind.Cube D }
    ensures ends { result ≡ edge_ends Kind.Cube D edge }
    ensures ordered { result.0 < result.1 }
    ensures corners { result.1 < corner_count Kind.Cube D }
{
    ENDS[edge as usize]
}

fn cube_facet<const D: usize>(facet: u8) -> u32
    requires dimension { IsDimension D }
    requires facet { facet < facet_count Kind.Cube D }
    ensures set { result ≡ set_number (facet_corners Kind.Cube D facet) }
    ensures members { HasFacetCorners Kind.Cube D facet result }
    ensures few { result < 2 ^ corner_count Kind.Cube D }
{
    CORNERS_OF_FACETS[D - 2][facet as usize]
}

fn edges_of_cube_facet<const D: usize>(facet: u8) -> u32
    requires dimension { IsDimension D }
    requires facet { facet < facet_count Kind.Cube D }
    ensures set { result ≡ set_number (facet_edges Kind.Cube D facet) }
    ensures members { HasFacetEdges Kind.Cube D facet result }
    ensures few { result < 2 ^ edge_count Kind.Cube D }
{
    EDGES_OF_FACETS[D - 2][facet as usize]
}

fn cube_basis<const D: usize>(corner: u8) -> [u8; D]
    requires dimension { IsDimension D }
    requires corner { corner < corner_count Kind.Cube D }
    ensures basis { result ≡ corner_basis Kind.Cube D corner }
    ensures edges { (i : ℕ) → i < D → slice_index result i < edge_count Kind.Cube D }
{
    let mut basis = [0; D];
    for axis in 0..D {
        basis[axis] = BASES[D - 2][corner as usize][axis];
    }
    basis
}

fn cube_seam<const D: usize>(number: u8) -> Seam
    requires dimension { IsDimension D }
    requires number { number < D }
    ensures facet { result.facet ≡ (seam_at Kind.Cube D number).facet }
    ensures other { result.other ≡ (seam_at Kind.Cube D number).other }
    ensures size { result.size ≡ length (met_corners Kind.Cube D (seam_at Kind.Cube D number)) }
    ensures map { result.map ≡ padded 8 (met_corners Kind.Cube D (seam_at Kind.Cube D number)) }
    ensures same { result.same ≡ (seam_at Kind.Cube D number).same_parity }
    ensures facets { (result.facet < facet_count Kind.Cube D) × (result.other < facet_count Kind.Cube D) }
    ensures places { result.size ≤ 8 }
    ensures corners { (i : ℕ) → i < 8 → slice_index result.map i < corner_count Kind.Cube D }
{
    SEAMS[D - 2][number as usize]
}

// The tables of two, three and four dimensions.
// The edges of the square stand first, then those of the cube, then those of the hypercube.
const ENDS: [(u8, u8); 32] = [
    (0, 1),
    (0, 2),
    (1, 3),
    (2, 3),
    (0, 4),
    (1, 5),
    (2, 6),
    (3, 7),
    (4, 5),
    (4, 6),
    (5, 7),
    (6, 7),
    (0, 8),
    (1, 9),
    (2, 10),
    (3, 11),
    (4, 12),
    (5, 13),
    (6, 14),
    (7, 15),
    (8, 9),
    (8, 10),
    (9, 11),
    (10, 11),
    (8, 12),
    (9, 13),
    (10, 14),
    (11, 15),
    (12, 13),
    (12, 14),
    (13, 15),
    (14, 15),
];

const CORNERS_OF_FACETS: [[u32; 8]; 3] = [
    [0x5, 0xa, 0x3, 0xc, 0, 0, 0, 0],
    [0x55, 0xaa, 0x33, 0xcc, 0xf, 0xf0, 0, 0],
    [0x5555, 0xaaaa, 0x3333, 0xcccc, 0xf0f, 0xf0f0, 0xff, 0xff00],
];

const EDGES_OF_FACETS: [[u32; 8]; 3] = [
    [0x2, 0x4, 0x1, 0x8, 0, 0, 0, 0],
    [0x252, 0x4a4, 0x131, 0x8c8, 0xf, 0xf00, 0, 0],
    [
        0x25255252, 0x4a4aa4a4, 0x13133131, 0x8c8cc8c8, 0xf0f00f, 0xf00f0f00, 0xfff, 0xfff00000,
    ],
];

const BASES: [[[u8; 4]; 16]; 3] = [
    [
        [0, 1, 0, 0],
        [0, 2, 0, 0],
        [1, 3, 0, 0],
        [2, 3, 0, 0],
        [0, 0, 0, 0],
        [0, 0, 0, 0],
        [0, 0, 0, 0],
        [0, 0, 0, 0],
        [0, 0, 0, 0],
        [0, 0, 0, 0],
        [0, 0, 0, 0],
        [0, 0, 0, 0],
        [0, 0, 0, 0],
        [0, 0, 0, 0],
        [0, 0, 0, 0],
        [0, 0, 0, 0],
    ],
    [
        [0, 1, 4, 0],
        [0, 2, 5, 0],
        [1, 3, 6, 0],
        [2, 3, 7, 0],
        [4, 8, 9, 0],
        [5, 8, 10, 0],
        [6, 9, 11, 0],
        [7, 10, 11, 0],
        [0, 0, 0, 0],
        [0, 0, 0, 0],
        [0, 0, 0, 0],
        [0, 0, 0, 0],
        [0, 0, 0, 0],
        [0, 0, 0, 0],
        [0, 0, 0, 0],
        [0, 0, 0, 0],
    ],
    [
        [0, 1, 4, 12],
        [0, 2, 5, 13],
        [1, 3, 6, 14],
        [2, 3, 7, 15],
        [4, 8, 9, 16],
        [5, 8, 10, 17],
        [6, 9, 11, 18],
        [7, 10, 11, 19],
        [12, 20, 21, 24],
        [13, 20, 22, 25],
        [14, 21, 23, 26],
        [15, 22, 23, 27],
        [16, 24, 28, 29],
        [17, 25, 28, 30],
        [18, 26, 29, 31],
        [19, 27, 30, 31],
    ],
];

const NO_SEAM: Seam = Seam {
    facet: 0,
    other: 0,
    size: 0,
    map: [0; 8],
    same: false,
};

const SEAMS: [[Seam; 4]; 3] = [
    [
        Seam {
            facet: 1,
            other: 0,
            size: 2,
            map: [0, 2, 0, 0, 0, 0, 0, 0],
            same: true,
        },
        Seam {
            facet: 3,
            other: 2,
            size: 2,
            map: [0, 1, 0, 0, 0, 0, 0, 0],
            same: true,
        },
        NO_SEAM,
        NO_SEAM,
    ],
    [
        Seam {
            facet: 1,
            other: 0,
            size: 4,
            map: [0, 2, 4, 6, 0, 0, 0, 0],
            same: true,
        },
        Seam {
            facet: 3,
            other: 2,
            size: 4,
            map: [0, 1, 4, 5, 0, 0, 0, 0],
            same: true,
        },
        Seam {
            facet: 5,
            other: 4,
            size: 4,
            map: [0, 1, 2, 3, 0, 0, 0, 0],
            same: true,
        },
        NO_SEAM,
    ],
    [
        Seam {
            facet: 1,
            other: 0,
            size: 8,
            map: [0, 2, 4, 6, 8, 10, 12, 14],
            same: true,
        },
        Seam {
            facet: 3,
            other: 2,
            size: 8,
            map: [0, 1, 4, 5, 8, 9, 12, 13],
            same: true,
        },
        Seam {
            facet: 5,
            other: 4,
            size: 8,
            map: [0, 1, 2, 3, 8, 9, 10, 11],
            same: true,
        },
        Seam {
            facet: 7,
            other: 6,
            size: 8,
            map: [0, 1, 2, 3, 4, 5, 6, 7],
            same: true,
        },
    ],
];
