ghost use Rattle.std.specs.Prelude.{◌≡◌, ℕ, ◌+◌, ◌-◌, ◌*◌, ◌/◌, ◌^◌, ◌<◌, ◌≤◌, length, map, slice_index, pos, refl};
ghost use Rattle.std.proofs.Common.{inl, inr, rules};
ghost use Rattle.iso_model.specs.declared.Kind.{Kind};
ghost use Rattle.iso_model.specs.Cells.{corner_count, edge_count, facet_count, corner_point, edge_ends, facet_corners, facet_edges, corner_basis, corner_in_facet, edge_in_facet};
ghost use Rattle.iso_model.specs.Dimensions.{IsDimension};
ghost use Rattle.cell_lattice.specs.SeamTables.{seam_at, met_corners, padded};
ghost use Rattle.cell_lattice.specs.CellLemmas.{counted_seams, own_edges, ordered_ends, meets_corners, keeps_edges, two_facets, basis_spans};
ghost use Rattle.lists.specs.Bits.{is_set, set_number};
ghost use Rattle.cell_lattice.specs.FacetSets.{HasFacetCorners, HasFacetEdges};

use crate::{Cell, Kind, Seam};

/// A simplex of D axes: corner 0 is the origin, and corner j is corner j - 1 plus 2 in axis j - 1.
#[derive(Clone, Copy)]
pub struct SimplexCell<const D: usize>;

impl Cell<2> for SimplexCell<2> {
    ghost KIND = { Kind.Simplex };

    ghost CORNERS = { 3 };

    ghost EDGES = { 3 };

    ghost FACETS = { 3 };

    ghost SEAMS = { 2 };

    const KIND: Kind = Kind::Simplex;

    const CORNERS: usize = 3;

    const EDGES: usize = 3;

    const FACETS: usize = 3;

    const SEAMS: usize = 2;

    ghost is_dimension = { inl refl };

    ghost has_dimension = { Prim.search rules };

    ghost corners = { refl };

    ghost edges = { refl };

    ghost facets = { refl };

    ghost seam_count = { refl };

    ghost ordered_ends = { ordered_ends Kind.Simplex 2 (inl refl) (Prim.search rules) };

    ghost own_edges = { own_edges Kind.Simplex 2 (inl refl) (Prim.search rules) };

    ghost meets_corners = { meets_corners Kind.Simplex 2 (inl refl) (Prim.search rules) };

    ghost keeps_edges = { keeps_edges Kind.Simplex 2 (inl refl) (Prim.search rules) };

    ghost two_facets = { two_facets Kind.Simplex 2 };

    ghost basis_spans = { basis_spans Kind.Simplex 2 (inl refl) (Prim.search rules) };

    fn corner_at(corner: u8) -> [i32; 2] {
        simplex_corner(corner)
    }

    fn edge_ends(edge: u8) -> (u8, u8) {
        simplex_edge::<2>(edge)
    }

    fn facet_mask(facet: u8) -> u32 {
        simplex_facet::<2>(facet)
    }

    fn facet_edges(facet: u8) -> u32 {
        edges_of_simplex_facet::<2>(facet)
    }

    fn corner_basis(corner: u8) -> [u8; 2] {
        simplex_basis(corner)
    }

    fn seam(number: u8) -> Seam {
        simplex_seam::<2>(number)
    }
}

impl Cell<3> for SimplexCell<3> {
    ghost KIND = { Kind.Simplex };

    ghost CORNERS = { 4 };

    ghost EDGES = { 6 };

    ghost FACETS = { 4 };

    ghost SEAMS = { 3 };

    const KIND: Kind = Kind::Simplex;

    const CORNERS: usize = 4;

    const EDGES: usize = 6;

    const FACETS: usize = 4;

    const SEAMS: usize = 3;

    ghost is_dimension = { inr (inl refl) };

    ghost has_dimension = { Prim.search rules };

    ghost corners = { refl };

    ghost edges = { refl };

    ghost facets = { refl };

    ghost seam_count = { refl };

    ghost ordered_ends = { ordered_ends Kind.Simplex 3 (inr (inl refl)) (Prim.search rules) };

    ghost own_edges = { own_edges Kind.Simplex 3 (inr (inl refl)) (Prim.search rules) };

    ghost meets_corners = { meets_corners Kind.Simplex 3 (inr (inl refl)) (Prim.search rules) };

    ghost keeps_edges = { keeps_edges Kind.Simplex 3 (inr (inl refl)) (Prim.search rules) };

    ghost two_facets = { two_facets Kind.Simplex 3 };

    ghost basis_spans = { basis_spans Kind.Simplex 3 (inr (inl refl)) (Prim.search rules) };

    fn corner_at(corner: u8) -> [i32; 3] {
        simplex_corner(corner)
    }

    fn edge_ends(edge: u8) -> (u8, u8) {
        simplex_edge::<3>(edge)
    }

    fn facet_mask(facet: u8) -> u32 {
        simplex_facet::<3>(facet)
    }

    fn facet_edges(facet: u8) -> u32 {
        edges_of_simplex_facet::<3>(facet)
    }

    fn corner_basis(corner: u8) -> [u8; 3] {
        simplex_basis(corner)
    }

    fn seam(number: u8) -> Seam {
        simplex_seam::<3>(number)
    }
}

impl Cell<4> for SimplexCell<4> {
    ghost KIND = { Kind.Simplex };

    ghost CORNERS = { 5 };

    ghost EDGES = { 10 };

    ghost FACETS = { 5 };

    ghost SEAMS = { 4 };

    const KIND: Kind = Kind::Simplex;

    const CORNERS: usize = 5;

    const EDGES: usize = 10;

    const FACETS: usize = 5;

    const SEAMS: usize = 4;

    ghost is_dimension = { inr (inr refl) };

    ghost has_dimension = { Prim.search rules };

    ghost corners = { refl };

    ghost edges = { refl };

    ghost facets = { refl };

    ghost seam_count = { refl };

    ghost ordered_ends = { ordered_ends Kind.Simplex 4 (inr (inr refl)) (Prim.search rules) };

    ghost own_edges = { own_edges Kind.Simplex 4 (inr (inr refl)) (Prim.search rules) };

    ghost meets_corners = { meets_corners Kind.Simplex 4 (inr (inr refl)) (Prim.search rules) };

    ghost keeps_edges = { keeps_edges Kind.Simplex 4 (inr (inr refl)) (Prim.search rules) };

    ghost two_facets = { two_facets Kind.Simplex 4 };

    ghost basis_spans = { basis_spans Kind.Simplex 4 (inr (inr refl)) (Prim.search rules) };

    fn corner_at(corner: u8) -> [i32; 4] {
        simplex_corner(corner)
    }

    fn edge_ends(edge: u8) -> (u8, u8) {
        simplex_edge::<4>(edge)
    }

    fn facet_mask(facet: u8) -> u32 {
        simplex_facet::<4>(facet)
    }

    fn facet_edges(facet: u8) -> u32 {
        edges_of_simplex_facet::<4>(facet)
    }

    fn corner_basis(corner: u8) -> [u8; 4] {
        simplex_basis(corner)
    }

    fn seam(number: u8) -> Seam {
        simplex_seam::<4>(number)
    }
}

// ---- the answers in any of the three dimensions

fn simplex_corner<const D: usize>(corner: u8) -> [i32; D]
    requires dimension { IsDimension D }
    requires corner { corner < corner_count Kind.Simplex D }
    ensures { result ≡ map pos (corner_point Kind.Simplex D corner) }
{
    let mut point = [0; D];
    for axis in 0..D {
        point[axis] = if axis < corner as usize { 2 } else { 0 };
    }
    point
}

fn simplex_edge<const D: usize>(edge: u8) -> (u8, u8)
    requires dimension { IsDimension D }
    requires edge { edge < edge_count Kind.Simplex D }
    ensures ends { result ≡ edge_ends Kind.Simplex D edge }
    ensures ordered { result.0 < result.1 }
    ensures corners { result.1 < corner_count Kind.Simplex D }
{
    ENDS[D - 2][edge as usize]
}

fn simplex_facet<const D: usize>(facet: u8) -> u32
    requires dimension { IsDimension D }
    requires facet { facet < facet_count Kind.Simplex D }
    ensures set { result ≡ set_number (facet_corners Kind.Simplex D facet) }
    ensures members { HasFacetCorners Kind.Simplex D facet result }
    ensures few { result < 2 ^ corner_count Kind.Simplex D }
{
    CORNERS_OF_FACETS[D - 2][facet as usize]
}

fn edges_of_simplex_facet<const D: usize>(facet: u8) -> u32
    requires dimension { IsDimension D }
    requires facet { facet < facet_count Kind.Simplex D }
    ensures set { result ≡ set_number (facet_edges Kind.Simplex D facet) }
    ensures members { HasFacetEdges Kind.Simplex D facet result }
    ensures few { result < 2 ^ edge_count Kind.Simplex D }
{
    EDGES_OF_FACETS[D - 2][facet as usize]
}

fn simplex_basis<const D: usize>(corner: u8) -> [u8; D]
    requires dimension { IsDimension D }
    requires corner { corner < corner_count Kind.Simplex D }
    ensures basis { result ≡ corner_basis Kind.Simplex D corner }
    ensures edges { (i : ℕ) → i < D → slice_index result i < edge_count Kind.Simplex D }
{
    let mut basis = [0; D];
    for axis in 0..D {
        basis[axis] = BASES[D - 2][corner as usize][axis];
    }
    basis
}

fn simplex_seam<const D: usize>(number: u8) -> Seam
    requires dimension { IsDimension D }
    requires number { number < D }
    ensures facet { result.facet ≡ (seam_at Kind.Simplex D number).facet }
    ensures other { result.other ≡ (seam_at Kind.Simplex D number).other }
    ensures size { result.size ≡ length (met_corners Kind.Simplex D (seam_at Kind.Simplex D number)) }
    ensures map { result.map ≡ padded 8 (met_corners Kind.Simplex D (seam_at Kind.Simplex D number)) }
    ensures same { result.same ≡ (seam_at Kind.Simplex D number).same_parity }
    ensures facets { (result.facet < facet_count Kind.Simplex D) × (result.other < facet_count Kind.Simplex D) }
    ensures places { result.size ≤ 8 }
    ensures corners { (i : ℕ) → i < 8 → slice_index result.map i < corner_count Kind.Simplex D }
{
    SEAMS[D - 2][number as usize]
}

// The tables of two, three and four dimensions.
const ENDS: [[(u8, u8); 10]; 3] = [
    [
        (0, 1),
        (0, 2),
        (1, 2),
        (0, 0),
        (0, 0),
        (0, 0),
        (0, 0),
        (0, 0),
        (0, 0),
        (0, 0),
    ],
    [
        (0, 1),
        (0, 2),
        (0, 3),
        (1, 2),
        (1, 3),
        (2, 3),
        (0, 0),
        (0, 0),
        (0, 0),
        (0, 0),
    ],
    [
        (0, 1),
        (0, 2),
        (0, 3),
        (0, 4),
        (1, 2),
        (1, 3),
        (1, 4),
        (2, 3),
        (2, 4),
        (3, 4),
    ],
];

const CORNERS_OF_FACETS: [[u32; 5]; 3] = [
    [0x6, 0x5, 0x3, 0, 0],
    [0xe, 0xd, 0xb, 0x7, 0],
    [0x1e, 0x1d, 0x1b, 0x17, 0xf],
];

const EDGES_OF_FACETS: [[u32; 5]; 3] = [
    [0x4, 0x2, 0x1, 0, 0],
    [0x38, 0x26, 0x15, 0xb, 0],
    [0x3f0, 0x38e, 0x26d, 0x15b, 0xb7],
];

const BASES: [[[u8; 4]; 5]; 3] = [
    [
        [0, 1, 0, 0],
        [0, 2, 0, 0],
        [1, 2, 0, 0],
        [0, 0, 0, 0],
        [0, 0, 0, 0],
    ],
    [
        [0, 1, 2, 0],
        [0, 3, 4, 0],
        [1, 3, 5, 0],
        [2, 4, 5, 0],
        [0, 0, 0, 0],
    ],
    [
        [0, 1, 2, 3],
        [0, 4, 5, 6],
        [1, 4, 7, 8],
        [2, 5, 7, 9],
        [3, 6, 8, 9],
    ],
];

const NO_SEAM: Seam = Seam {
    facet: 0,
    other: 0,
    size: 0,
    map: [0; 8],
    same: false,
};

const SEAMS: [[Seam; 4]; 3] = [
    [
        Seam {
            facet: 1,
            other: 1,
            size: 2,
            map: [0, 2, 0, 0, 0, 0, 0, 0],
            same: false,
        },
        Seam {
            facet: 0,
            other: 2,
            size: 2,
            map: [0, 1, 0, 0, 0, 0, 0, 0],
            same: false,
        },
        NO_SEAM,
        NO_SEAM,
    ],
    [
        Seam {
            facet: 1,
            other: 1,
            size: 3,
            map: [0, 2, 3, 0, 0, 0, 0, 0],
            same: false,
        },
        Seam {
            facet: 2,
            other: 2,
            size: 3,
            map: [0, 1, 3, 0, 0, 0, 0, 0],
            same: false,
        },
        Seam {
            facet: 0,
            other: 3,
            size: 3,
            map: [0, 1, 2, 0, 0, 0, 0, 0],
            same: true,
        },
        NO_SEAM,
    ],
    [
        Seam {
            facet: 1,
            other: 1,
            size: 4,
            map: [0, 2, 3, 4, 0, 0, 0, 0],
            same: false,
        },
        Seam {
            facet: 2,
            other: 2,
            size: 4,
            map: [0, 1, 3, 4, 0, 0, 0, 0],
            same: false,
        },
        Seam {
            facet: 3,
            other: 3,
            size: 4,
            map: [0, 1, 2, 4, 0, 0, 0, 0],
            same: false,
        },
        Seam {
            facet: 0,
            other: 4,
            size: 4,
            map: [0, 1, 2, 3, 0, 0, 0, 0],
            same: false,
        },
    ],
];
