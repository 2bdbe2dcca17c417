ghost use Rattle.std.specs.Prelude.{ℕ, ◌<◌, ◌≤◌, ◌+◌, ◌*◌, length, refl};
ghost use Rattle.std.proofs.Common.{rules, inl, inr, arith};
ghost use Rattle.iso_model.specs.declared.Kind.{Kind};
ghost use Rattle.split_laws.proofs.RingsOfEdges.{grid_rings};
ghost use Rattle.split_laws.proofs.SplitTheorems.{across_leads_back, one_across, own_corners, flat_sides, grid_midpoints, joined, turns_kept, grid_shares, grid_neighbour, grid_boundary};

use crate::Split;
use cell_lattice::PyramidCell;

impl Split<3> for PyramidCell {
    ghost PER_CUBE = { 6 };

    const PER_CUBE: u32 = 6;

    ghost counted = { refl };

    ghost few_ranks = { Prim.search rules };

    ghost leads_back = { across_leads_back Kind.Pyramid 3 (inr (inl refl)) refl };

    ghost one_across = { one_across Kind.Pyramid 3 (inr (inl refl)) refl };

    ghost own_corners = { own_corners Kind.Pyramid 3 (inr (inl refl)) refl };

    ghost flat_sides = { flat_sides Kind.Pyramid 3 (inr (inl refl)) refl };

    ghost own_midpoints = { grid_midpoints Kind.Pyramid 3 (inr (inl refl)) refl };

    ghost joined = { joined Kind.Pyramid 3 (inr (inl refl)) refl };

    ghost turns_kept = { turns_kept Kind.Pyramid 3 (inr (inl refl)) refl };

    ghost shares = { grid_shares Kind.Pyramid 3 (inr (inl refl)) refl };

    ghost rings = { grid_rings Kind.Pyramid 3 };

    ghost stands = { grid_neighbour Kind.Pyramid 3 (inr (inl refl)) refl };

    ghost leaves = { grid_boundary Kind.Pyramid 3 (inr (inl refl)) refl };

    fn offset(rank: u32, corner: u8) -> [u8; 3] {
        OFFSETS[rank as usize][corner as usize]
    }

    fn odd(rank: u32) -> bool {
        ODD[rank as usize]
    }

    fn across(rank: u32, facet: u8) -> ([i8; 3], u32, u8) {
        let (other, there) = ACROSS[rank as usize][facet as usize];
        (SHIFTS[rank as usize][facet as usize], other, there)
    }
}

// The corners of the pyramid over side s of axis a, in rank 2a + s.
const OFFSETS: [[[u8; 3]; 5]; 6] = [
    [[0, 0, 0], [0, 2, 0], [0, 0, 2], [0, 2, 2], [1, 1, 1]],
    [[2, 0, 0], [2, 2, 0], [2, 0, 2], [2, 2, 2], [1, 1, 1]],
    [[0, 0, 0], [2, 0, 0], [0, 0, 2], [2, 0, 2], [1, 1, 1]],
    [[0, 2, 0], [2, 2, 0], [0, 2, 2], [2, 2, 2], [1, 1, 1]],
    [[0, 0, 0], [2, 0, 0], [0, 2, 0], [2, 2, 0], [1, 1, 1]],
    [[0, 0, 2], [2, 0, 2], [0, 2, 2], [2, 2, 2], [1, 1, 1]],
];

const ODD: [bool; 6] = [false, true, true, false, false, true];

// The shift of the cube across each facet: across the base alone it moves.
const SHIFTS: [[[i8; 3]; 5]; 6] = [
    [[-1, 0, 0], [0, 0, 0], [0, 0, 0], [0, 0, 0], [0, 0, 0]],
    [[1, 0, 0], [0, 0, 0], [0, 0, 0], [0, 0, 0], [0, 0, 0]],
    [[0, -1, 0], [0, 0, 0], [0, 0, 0], [0, 0, 0], [0, 0, 0]],
    [[0, 1, 0], [0, 0, 0], [0, 0, 0], [0, 0, 0], [0, 0, 0]],
    [[0, 0, -1], [0, 0, 0], [0, 0, 0], [0, 0, 0], [0, 0, 0]],
    [[0, 0, 1], [0, 0, 0], [0, 0, 0], [0, 0, 0], [0, 0, 0]],
];

// The rank and the facet across each facet.
const ACROSS: [[(u32, u8); 5]; 6] = [
    [(1, 0), (2, 1), (3, 1), (4, 1), (5, 1)],
    [(0, 0), (2, 2), (3, 2), (4, 2), (5, 2)],
    [(3, 0), (0, 1), (1, 1), (4, 3), (5, 3)],
    [(2, 0), (0, 2), (1, 2), (4, 4), (5, 4)],
    [(5, 0), (0, 3), (1, 3), (2, 3), (3, 3)],
    [(4, 0), (0, 4), (1, 4), (2, 4), (3, 4)],
];
