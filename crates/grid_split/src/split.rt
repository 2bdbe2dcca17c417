ghost use Rattle.std.specs.Prelude.{◌≡◌, ℕ, ◌<◌, ◌≤◌, List, length, slice_index};
ghost use Rattle.iso_model.specs.Splits.{cells_per_cube, corner_offset, is_odd_rank};
ghost use Rattle.iso_model.specs.Neighbours.{shift_across, IsAcross, HaveOwnMidpoints};
ghost use Rattle.iso_model.specs.SplitLaws.{HasOwnCorners, HasFlatSides};
ghost use Rattle.grid_split.specs.Laws.{LeadsBack, HasOneAcross, JoinsFacets, KeepsAllTurns, SharesFacets, HasRings, HasNeighboursAcross, LeavesAtBoundary};

use cell_lattice::Cell;

/// An edge of a grid by its two ends, in half-units. The end that comes first, last coordinate first, is `low`.
#[derive(Clone, Copy, Debug, PartialEq, Eq, PartialOrd, Ord, Hash)]
pub struct Edge<const D: usize> {
    pub low: [u32; D],
    pub high: [u32; D],
}

/// A split of each cube of a grid into cells of one kind. The cells of a cube have ranks, counted from 0.
pub trait Split<const D: usize>: Cell<D> {
    ghost PER_CUBE: { ℕ };

    /// The number of cells of a cube.
    const PER_CUBE: u32;

    /// Corner `corner` of the cell of this rank, in half-units from the first corner of the cube.
    /// The rank is below `PER_CUBE`, the corner below `CORNERS`.
    fn offset(rank: u32, corner: u8) -> [u8; D]
        requires rank { rank < PER_CUBE }
        requires corner { corner < Self.CORNERS }
        ensures offset { result ≡ corner_offset Self.KIND D rank corner }
        ensures small { (i : ℕ) → slice_index result i ≤ 2 };

    /// Whether the cell of this rank is odd: a mirror image of the canonical cell. The rank is below `PER_CUBE`.
    fn odd(rank: u32) -> bool
        requires { rank < PER_CUBE }
        ensures { result ≡ is_odd_rank Self.KIND D rank };

    /// What stands across a facet of the cell of this rank: the shift of the cube, and the rank and the facet there.
    /// The rank is below `PER_CUBE`, the facet below `FACETS`.
    fn across(rank: u32, facet: u8) -> ([i8; D], u32, u8)
        requires rank { rank < PER_CUBE }
        requires facet { facet < Self.FACETS }
        ensures shift { result.0 ≡ shift_across Self.KIND D rank facet }
        ensures across { IsAcross Self.KIND D rank facet result.1 result.2 };

    ghost counted: { PER_CUBE ≡ cells_per_cube Self.KIND D };

    ghost few_ranks: { (1 ≤ PER_CUBE) × (PER_CUBE ≤ 24) };

    ghost leads_back: { LeadsBack Self.KIND D };

    ghost one_across: { HasOneAcross Self.KIND D };

    ghost own_corners: { (rank : ℕ) → rank < cells_per_cube Self.KIND D → HasOwnCorners Self.KIND D rank };

    ghost flat_sides: { (rank : ℕ) → rank < cells_per_cube Self.KIND D → HasFlatSides Self.KIND D rank };

    ghost own_midpoints: { (sizes : List ℕ) → length sizes ≡ D → HaveOwnMidpoints Self.KIND sizes };

    ghost joined: { JoinsFacets Self.KIND D };

    ghost turns_kept: { KeepsAllTurns Self.KIND D };

    ghost shares: { SharesFacets Self.KIND D };

    ghost rings: { HasRings Self.KIND D };

    ghost stands: { HasNeighboursAcross Self.KIND D };

    ghost leaves: { LeavesAtBoundary Self.KIND D };
}
