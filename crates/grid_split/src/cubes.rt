ghost use Rattle.std.specs.Prelude.{ℕ, ◌<◌, ◌≤◌, ◌+◌, ◌*◌, length, refl};
ghost use Rattle.std.proofs.Common.{rules, inl, inr, arith};
ghost use Rattle.iso_model.specs.declared.Kind.{Kind};
ghost use Rattle.split_laws.proofs.RingsOfEdges.{grid_rings};
ghost use Rattle.split_laws.proofs.SplitTheorems.{across_leads_back, one_across, own_corners, flat_sides, grid_midpoints, joined, turns_kept, grid_shares, grid_neighbour, grid_boundary};
ghost use Rattle.std.specs.Prelude.{◌≡◌, slice_index, nat_lt, if◌then◌else◌};
ghost use Rattle.iso_model.specs.Cells.{corner_count, facet_count};
ghost use Rattle.iso_model.specs.Splits.{cells_per_cube, corner_offset, is_odd_rank};
ghost use Rattle.iso_model.specs.Neighbours.{shift_across, IsAcross};
ghost use Rattle.iso_model.specs.Dimensions.{IsDimension};
ghost use Rattle.grid_split.specs.Shifts.{shift_along_axis};

use crate::Split;
use cell_lattice::CubeCell;

impl Split<2> for CubeCell<2> {
    ghost PER_CUBE = { 1 };

    const PER_CUBE: u32 = 1;

    ghost counted = { refl };

    ghost few_ranks = { Prim.search rules };

    ghost leads_back = { across_leads_back Kind.Cube 2 (inl refl) (Prim.search rules) };

    ghost one_across = { one_across Kind.Cube 2 (inl refl) (Prim.search rules) };

    ghost own_corners = { own_corners Kind.Cube 2 (inl refl) (Prim.search rules) };

    ghost flat_sides = { flat_sides Kind.Cube 2 (inl refl) (Prim.search rules) };

    ghost own_midpoints = { grid_midpoints Kind.Cube 2 (inl refl) (Prim.search rules) };

    ghost joined = { joined Kind.Cube 2 (inl refl) (Prim.search rules) };

    ghost turns_kept = { turns_kept Kind.Cube 2 (inl refl) (Prim.search rules) };

    ghost shares = { grid_shares Kind.Cube 2 (inl refl) (Prim.search rules) };

    ghost rings = { grid_rings Kind.Cube 2 };

    ghost stands = { grid_neighbour Kind.Cube 2 (inl refl) (Prim.search rules) };

    ghost leaves = { grid_boundary Kind.Cube 2 (inl refl) (Prim.search rules) };

    fn offset(_rank: u32, corner: u8) -> [u8; 2] {
        cube_offset(corner)
    }

    fn odd(_rank: u32) -> bool {
        false
    }

    fn across(rank: u32, facet: u8) -> ([i8; 2], u32, u8) {
        cube_across(rank, facet)
    }
}

impl Split<3> for CubeCell<3> {
    ghost PER_CUBE = { 1 };

    const PER_CUBE: u32 = 1;

    ghost counted = { refl };

    ghost few_ranks = { Prim.search rules };

    ghost leads_back = { across_leads_back Kind.Cube 3 (inr (inl refl)) (Prim.search rules) };

    ghost one_across = { one_across Kind.Cube 3 (inr (inl refl)) (Prim.search rules) };

    ghost own_corners = { own_corners Kind.Cube 3 (inr (inl refl)) (Prim.search rules) };

    ghost flat_sides = { flat_sides Kind.Cube 3 (inr (inl refl)) (Prim.search rules) };

    ghost own_midpoints = { grid_midpoints Kind.Cube 3 (inr (inl refl)) (Prim.search rules) };

    ghost joined = { joined Kind.Cube 3 (inr (inl refl)) (Prim.search rules) };

    ghost turns_kept = { turns_kept Kind.Cube 3 (inr (inl refl)) (Prim.search rules) };

    ghost shares = { grid_shares Kind.Cube 3 (inr (inl refl)) (Prim.search rules) };

    ghost rings = { grid_rings Kind.Cube 3 };

    ghost stands = { grid_neighbour Kind.Cube 3 (inr (inl refl)) (Prim.search rules) };

    ghost leaves = { grid_boundary Kind.Cube 3 (inr (inl refl)) (Prim.search rules) };

    fn offset(_rank: u32, corner: u8) -> [u8; 3] {
        cube_offset(corner)
    }

    fn odd(_rank: u32) -> bool {
        false
    }

    fn across(rank: u32, facet: u8) -> ([i8; 3], u32, u8) {
        cube_across(rank, facet)
    }
}

impl Split<4> for CubeCell<4> {
    ghost PER_CUBE = { 1 };

    const PER_CUBE: u32 = 1;

    ghost counted = { refl };

    ghost few_ranks = { Prim.search rules };

    ghost leads_back = { across_leads_back Kind.Cube 4 (inr (inr refl)) (Prim.search rules) };

    ghost one_across = { one_across Kind.Cube 4 (inr (inr refl)) (Prim.search rules) };

    ghost own_corners = { own_corners Kind.Cube 4 (inr (inr refl)) (Prim.search rules) };

    ghost flat_sides = { flat_sides Kind.Cube 4 (inr (inr refl)) (Prim.search rules) };

    ghost own_midpoints = { grid_midpoints Kind.Cube 4 (inr (inr refl)) (Prim.search rules) };

    ghost joined = { joined Kind.Cube 4 (inr (inr refl)) (Prim.search rules) };

    ghost turns_kept = { turns_kept Kind.Cube 4 (inr (inr refl)) (Prim.search rules) };

    ghost shares = { grid_shares Kind.Cube 4 (inr (inr refl)) (Prim.search rules) };

    ghost rings = { grid_rings Kind.Cube 4 };

    ghost stands = { grid_neighbour Kind.Cube 4 (inr (inr refl)) (Prim.search rules) };

    ghost leaves = { grid_boundary Kind.Cube 4 (inr (inr refl)) (Prim.search rules) };

    fn offset(_rank: u32, corner: u8) -> [u8; 4] {
        cube_offset(corner)
    }

    fn odd(_rank: u32) -> bool {
        false
    }

    fn across(rank: u32, facet: u8) -> ([i8; 4], u32, u8) {
        cube_across(rank, facet)
    }
}

// ---- the answers in any of the three dimensions

fn cube_offset<const D: usize>(corner: u8) -> [u8; D]
    requires dimension { IsDimension D }
    requires corner { corner < corner_count Kind.Cube D }
    ensures offset { result ≡ corner_offset Kind.Cube D 0 corner }
    ensures small { (i : ℕ) → slice_index result i ≤ 2 }
{
    let mut offset = [0; D];
    for axis in 0..D {
        offset[axis] = 2 * ((corner >> axis) & 1);
    }
    offset
}

// The cube that moves across a facet.
fn cube_across<const D: usize>(_rank: u32, facet: u8) -> ([i8; D], u32, u8)
    requires dimension { IsDimension D }
    requires rank { _rank < 1 }
    requires facet { facet < facet_count Kind.Cube D }
    ensures shift { result.0 ≡ shift_across Kind.Cube D _rank facet }
    ensures across { IsAcross Kind.Cube D _rank facet result.1 result.2 }
{
    let mut shift = [0; D];
    for axis in 0..D {
        shift[axis] = shift_along(axis, facet);
    }
    (shift, 0, facet + 1 - 2 * (facet % 2))
}

// How the cube moves along an axis across a facet: only along the axis of the facet.
fn shift_along(axis: usize, facet: u8) -> i8
    ensures { result ≡ shift_along_axis axis facet }
{
    if usize::from(facet / 2) != axis {
        0
    } else if facet % 2 == 1 {
        1
    } else {
        -1
    }
}
