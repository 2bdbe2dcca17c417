ghost use Rattle.std.specs.Prelude.{ℕ, ◌<◌, ◌≤◌, ◌+◌, ◌*◌, length, refl};
ghost use Rattle.std.proofs.Common.{rules, inl, inr, arith};
ghost use Rattle.iso_model.specs.declared.Kind.{Kind};
ghost use Rattle.split_laws.proofs.RingsOfEdges.{grid_rings};
ghost use Rattle.split_laws.proofs.SplitTheorems.{across_leads_back, one_across, own_corners, flat_sides, grid_midpoints, joined, turns_kept, grid_shares, grid_neighbour, grid_boundary};
ghost use Rattle.std.specs.Prelude.{◌≡◌, slice_index, nat_lt, if◌then◌else◌};
ghost use Rattle.iso_model.specs.Cells.{corner_count, facet_count};
ghost use Rattle.iso_model.specs.Splits.{cells_per_cube, corner_offset, is_odd_rank};
ghost use Rattle.iso_model.specs.Neighbours.{shift_across, IsAcross};
ghost use Rattle.iso_model.specs.Dimensions.{IsDimension};
ghost use Rattle.iso_model.specs.declared.Kind.TheVariants.{Simplex};
ghost use Rattle.grid_split.specs.Shifts.{first_order, other_facet, shift_at_place};

use crate::Split;
use cell_lattice::SimplexCell;

impl Split<2> for SimplexCell<2> {
    ghost PER_CUBE = { 2 };

    const PER_CUBE: u32 = 2;

    ghost counted = { refl };

    ghost few_ranks = { Prim.search rules };

    ghost leads_back = { across_leads_back Kind.Simplex 2 (inl refl) (Prim.search rules) };

    ghost one_across = { one_across Kind.Simplex 2 (inl refl) (Prim.search rules) };

    ghost own_corners = { own_corners Kind.Simplex 2 (inl refl) (Prim.search rules) };

    ghost flat_sides = { flat_sides Kind.Simplex 2 (inl refl) (Prim.search rules) };

    ghost own_midpoints = { grid_midpoints Kind.Simplex 2 (inl refl) (Prim.search rules) };

    ghost joined = { joined Kind.Simplex 2 (inl refl) (Prim.search rules) };

    ghost turns_kept = { turns_kept Kind.Simplex 2 (inl refl) (Prim.search rules) };

    ghost shares = { grid_shares Kind.Simplex 2 (inl refl) (Prim.search rules) };

    ghost rings = { grid_rings Kind.Simplex 2 };

    ghost stands = { grid_neighbour Kind.Simplex 2 (inl refl) (Prim.search rules) };

    ghost leaves = { grid_boundary Kind.Simplex 2 (inl refl) (Prim.search rules) };

    fn offset(rank: u32, corner: u8) -> [u8; 2] {
        simplex_offset(rank, corner)
    }

    fn odd(rank: u32) -> bool {
        simplex_odd::<2>(rank)
    }

    fn across(rank: u32, facet: u8) -> ([i8; 2], u32, u8) {
        simplex_across(rank, facet)
    }
}

impl Split<3> for SimplexCell<3> {
    ghost PER_CUBE = { 6 };

    const PER_CUBE: u32 = 6;

    ghost counted = { refl };

    ghost few_ranks = { Prim.search rules };

    ghost leads_back = { across_leads_back Kind.Simplex 3 (inr (inl refl)) (Prim.search rules) };

    ghost one_across = { one_across Kind.Simplex 3 (inr (inl refl)) (Prim.search rules) };

    ghost own_corners = { own_corners Kind.Simplex 3 (inr (inl refl)) (Prim.search rules) };

    ghost flat_sides = { flat_sides Kind.Simplex 3 (inr (inl refl)) (Prim.search rules) };

    ghost own_midpoints = { grid_midpoints Kind.Simplex 3 (inr (inl refl)) (Prim.search rules) };

    ghost joined = { joined Kind.Simplex 3 (inr (inl refl)) (Prim.search rules) };

    ghost turns_kept = { turns_kept Kind.Simplex 3 (inr (inl refl)) (Prim.search rules) };

    ghost shares = { grid_shares Kind.Simplex 3 (inr (inl refl)) (Prim.search rules) };

    ghost rings = { grid_rings Kind.Simplex 3 };

    ghost stands = { grid_neighbour Kind.Simplex 3 (inr (inl refl)) (Prim.search rules) };

    ghost leaves = { grid_boundary Kind.Simplex 3 (inr (inl refl)) (Prim.search rules) };

    fn offset(rank: u32, corner: u8) -> [u8; 3] {
        simplex_offset(rank, corner)
    }

    fn odd(rank: u32) -> bool {
        simplex_odd::<3>(rank)
    }

    fn across(rank: u32, facet: u8) -> ([i8; 3], u32, u8) {
        simplex_across(rank, facet)
    }
}

impl Split<4> for SimplexCell<4> {
    ghost PER_CUBE = { 24 };

    const PER_CUBE: u32 = 24;

    ghost counted = { refl };

    ghost few_ranks = { Prim.search rules };

    ghost leads_back = { across_leads_back Kind.Simplex 4 (inr (inr refl)) (Prim.search rules) };

    ghost one_across = { one_across Kind.Simplex 4 (inr (inr refl)) (Prim.search rules) };

    ghost own_corners = { own_corners Kind.Simplex 4 (inr (inr refl)) (Prim.search rules) };

    ghost flat_sides = { flat_sides Kind.Simplex 4 (inr (inr refl)) (Prim.search rules) };

    ghost own_midpoints = { grid_midpoints Kind.Simplex 4 (inr (inr refl)) (Prim.search rules) };

    ghost joined = { joined Kind.Simplex 4 (inr (inr refl)) (Prim.search rules) };

    ghost turns_kept = { turns_kept Kind.Simplex 4 (inr (inr refl)) (Prim.search rules) };

    ghost shares = { grid_shares Kind.Simplex 4 (inr (inr refl)) (Prim.search rules) };

    ghost rings = { grid_rings Kind.Simplex 4 };

    ghost stands = { grid_neighbour Kind.Simplex 4 (inr (inr refl)) (Prim.search rules) };

    ghost leaves = { grid_boundary Kind.Simplex 4 (inr (inr refl)) (Prim.search rules) };

    fn offset(rank: u32, corner: u8) -> [u8; 4] {
        simplex_offset(rank, corner)
    }

    fn odd(rank: u32) -> bool {
        simplex_odd::<4>(rank)
    }

    fn across(rank: u32, facet: u8) -> ([i8; 4], u32, u8) {
        simplex_across(rank, facet)
    }
}

// ---- the answers in any of the three dimensions

fn simplex_offset<const D: usize>(rank: u32, corner: u8) -> [u8; D]
    requires dimension { IsDimension D }
    requires rank { rank < cells_per_cube Simplex D }
    requires corner { corner < corner_count Simplex D }
    ensures offset { result ≡ corner_offset Simplex D rank corner }
    ensures small { (i : ℕ) → slice_index result i ≤ 2 }
{
    let places = PLACES[order_number::<D>(rank)];
    let mut offset = [0; D];
    for axis in 0..D {
        offset[axis] = offset_at_place(places[axis], corner);
    }
    offset
}

fn simplex_odd<const D: usize>(rank: u32) -> bool
    requires dimension { IsDimension D }
    requires rank { rank < cells_per_cube Simplex D }
    ensures { result ≡ is_odd_rank Simplex D rank }
{
    ODD[order_number::<D>(rank)]
}

fn simplex_across<const D: usize>(rank: u32, facet: u8) -> ([i8; D], u32, u8)
    requires dimension { IsDimension D }
    requires rank { rank < cells_per_cube Simplex D }
    requires facet { facet < facet_count Simplex D }
    ensures shift { result.0 ≡ shift_across Simplex D rank facet }
    ensures across { IsAcross Simplex D rank facet result.1 result.2 }
{
    let order = order_number::<D>(rank);
    let places = PLACES[order];
    let last = D as u8;
    let mut shift = [0; D];
    for axis in 0..D {
        shift[axis] = shift_of_place(places[axis], facet, last);
    }
    (
        shift,
        ACROSS[order][facet as usize],
        facet_across(facet, last),
    )
}

// The facet across a facet: first and last facet stand across from each other, and each other one from its like.
fn facet_across(facet: u8, last: u8) -> u8
    ensures { result ≡ other_facet last facet }
{
    if facet == 0 {
        last
    } else if facet == last {
        0
    } else {
        facet
    }
}

// A corner has gone along the axes at the places before it.
fn offset_at_place(place: u8, corner: u8) -> u8
    ensures { result ≡ (if nat_lt place corner then 2 else 0) }
{
    if place < corner { 2 } else { 0 }
}

// How the cube moves across a facet, along the axis at this place of the order.
fn shift_of_place(place: u8, facet: u8, last: u8) -> i8
    requires { 1 ≤ last }
    ensures { result ≡ shift_at_place place facet last }
{
    if facet == 0 && place == 0 {
        1
    } else if facet == last && place == last - 1 {
        -1
    } else {
        0
    }
}

// The orders of two, of three and of four axes stand one after another.
fn order_number<const D: usize>(rank: u32) -> usize
    requires dimension { IsDimension D }
    requires rank { rank < cells_per_cube Simplex D }
    ensures number { result ≡ first_order D + rank }
    ensures few { result < 32 }
{
    FIRST[D - 2] + rank as usize
}

const FIRST: [usize; 3] = [0, 2, 8];

// The place of each axis in its order.
const PLACES: [[u8; 4]; 32] = [
    [0, 1, 0, 0],
    [1, 0, 0, 0],
    [0, 1, 2, 0],
    [0, 2, 1, 0],
    [1, 0, 2, 0],
    [2, 0, 1, 0],
    [1, 2, 0, 0],
    [2, 1, 0, 0],
    [0, 1, 2, 3],
    [0, 1, 3, 2],
    [0, 2, 1, 3],
    [0, 3, 1, 2],
    [0, 2, 3, 1],
    [0, 3, 2, 1],
    [1, 0, 2, 3],
    [1, 0, 3, 2],
    [2, 0, 1, 3],
    [3, 0, 1, 2],
    [2, 0, 3, 1],
    [3, 0, 2, 1],
    [1, 2, 0, 3],
    [1, 3, 0, 2],
    [2, 1, 0, 3],
    [3, 1, 0, 2],
    [2, 3, 0, 1],
    [3, 2, 0, 1],
    [1, 2, 3, 0],
    [1, 3, 2, 0],
    [2, 1, 3, 0],
    [3, 1, 2, 0],
    [2, 3, 1, 0],
    [3, 2, 1, 0],
];

// The orders that take an odd number of exchanges.
const ODD: [bool; 32] = [
    false, true, false, true, true, false, false, true, false, true, true, false, false, true,
    true, false, false, true, true, false, false, true, true, false, false, true, true, false,
    false, true, true, false,
];

// The rank across each facet.
const ACROSS: [[u32; 5]; 32] = [
    [1, 1, 1, 0, 0],
    [0, 0, 0, 0, 0],
    [3, 2, 1, 4, 0],
    [5, 4, 0, 2, 0],
    [1, 0, 3, 5, 0],
    [4, 5, 2, 0, 0],
    [0, 1, 5, 3, 0],
    [2, 3, 4, 1, 0],
    [9, 6, 2, 1, 18],
    [11, 7, 4, 0, 12],
    [15, 12, 0, 3, 19],
    [17, 13, 5, 2, 6],
    [21, 18, 1, 5, 13],
    [23, 19, 3, 4, 7],
    [3, 0, 8, 7, 20],
    [5, 1, 10, 6, 14],
    [13, 14, 6, 9, 21],
    [16, 15, 11, 8, 0],
    [19, 20, 7, 11, 15],
    [22, 21, 9, 10, 1],
    [1, 2, 14, 13, 22],
    [4, 3, 16, 12, 8],
    [7, 8, 12, 15, 23],
    [10, 9, 17, 14, 2],
    [18, 22, 13, 17, 9],
    [20, 23, 15, 16, 3],
    [0, 4, 20, 19, 16],
    [2, 5, 22, 18, 10],
    [6, 10, 18, 21, 17],
    [8, 11, 23, 20, 4],
    [12, 16, 19, 23, 11],
    [14, 17, 21, 22, 5],
];
