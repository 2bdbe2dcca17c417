//! The canonical cells, of which isosurface tables speak: their corners, edges, facets and seams.
#![tactic(auto)]

ghost use Rattle.std.specs.Prelude.{◌≡◌, ℕ, ◌^◌, ◌<◌, ◌≤◌, length, map, slice_index, pos, ◌+ℤ◌, All, refl};
ghost use Rattle.std.proofs.Common.{inl, inr};
ghost use Rattle.iso_model.specs.declared.Kind.{Kind};
ghost use Rattle.iso_model.specs.Cells.{HasDimension, corner_count, edge_count, facet_count, corner_point, edge_ends, edge_midpoint, facet_corners, facet_edges, corner_basis, corner_in_facet, edge_in_facet};
ghost use Rattle.iso_model.specs.Seams.{seams};
ghost use Rattle.iso_model.specs.CellLaws.{HasOwnEdges, MeetsCorners, KeepsEdges, LiesInTwoFacets, SpansAtCorner, HasOrderedEnds};
ghost use Rattle.cell_lattice.specs.Coordinates.{IsCoordinate};
ghost use Rattle.iso_model.specs.Dimensions.{IsDimension};
ghost use Rattle.cell_lattice.specs.SeamTables.{seam_at, met_corners, padded};
ghost use Rattle.lists.specs.Bits.{is_set, set_number};

mod cubes;
mod pyramids;
mod simplices;

pub use cubes::{CubeCell, cube_edge};
pub use iso_model::Kind;
pub use pyramids::PyramidCell;
pub use simplices::SimplexCell;

/// Two facets that may be the same points in a grid: the corner at place i of `facet`, in ascending order, meets
/// corner `map[i]` of `other`, for i below `size`; the other places of `map` are 0. `same` says that the two cells
/// have the same parity.
#[derive(Clone, Copy, Debug, PartialEq, Eq)]
pub struct Seam {
    pub facet: u8,
    pub other: u8,
    pub size: u8,
    pub map: [u8; 8],
    pub same: bool,
}

/// The canonical cell of a kind and a dimension.
pub trait Cell<const D: usize> {
    ghost KIND: { Kind };

    ghost CORNERS: { ℕ };

    ghost EDGES: { ℕ };

    ghost FACETS: { ℕ };

    ghost SEAMS: { ℕ };

    const KIND: Kind;

    const CORNERS: usize;

    const EDGES: usize;

    const FACETS: usize;

    const SEAMS: usize;

    /// Corner `corner`, in half-units.
    fn corner_at(corner: u8) -> [i32; D]
        requires { corner < CORNERS }
        ensures { result ≡ map pos (corner_point KIND D corner) };

    /// The two corners of the edge, the smaller first.
    fn edge_ends(edge: u8) -> (u8, u8)
        requires { edge < EDGES }
        ensures ends { result ≡ edge_ends KIND D edge }
        ensures ordered { result.0 < result.1 }
        ensures corners { result.1 < CORNERS };

    /// The sum of the edge's two corners, in quarter-units.
    fn edge_mid(edge: u8) -> [i32; D]
        requires { edge < EDGES }
        ensures { result ≡ map pos (edge_midpoint KIND D edge) }
    {
        let (first, second) = Self::edge_ends(edge);
        let from = Self::corner_at(first);
        let to = Self::corner_at(second);
        let mut sum = [0; D];
        for axis in 0..D {
            sum[axis] = small_sum(from[axis], to[axis]);
        }
        sum
    }

    /// The set of the corners of the facet: bit k is set where corner k is one.
    fn facet_mask(facet: u8) -> u32
        requires { facet < FACETS }
        ensures set { result ≡ set_number (facet_corners KIND D facet) }
        ensures members { (k : ℕ) → k < CORNERS → is_set result k ≡ corner_in_facet KIND facet k }
        ensures few { result < 2 ^ CORNERS };

    /// The set of the edges with both ends in the facet.
    fn facet_edges(facet: u8) -> u32
        requires { facet < FACETS }
        ensures set { result ≡ set_number (facet_edges KIND D facet) }
        ensures members { (e : ℕ) → e < EDGES → is_set result e ≡ edge_in_facet KIND D facet e }
        ensures few { result < 2 ^ EDGES };

    /// The D edges of least number at the corner.
    fn corner_basis(corner: u8) -> [u8; D]
        requires { corner < CORNERS }
        ensures basis { result ≡ corner_basis KIND D corner }
        ensures edges { (i : ℕ) → i < D → slice_index result i < EDGES };

    /// The seam of this number.
    fn seam(number: u8) -> Seam
        requires { number < SEAMS }
        ensures facet { result.facet ≡ (seam_at KIND D number).facet }
        ensures other { result.other ≡ (seam_at KIND D number).other }
        ensures size { result.size ≡ length (met_corners KIND D (seam_at KIND D number)) }
        ensures map { result.map ≡ padded 8 (met_corners KIND D (seam_at KIND D number)) }
        ensures same { result.same ≡ (seam_at KIND D number).same_parity }
        ensures facets { (result.facet < FACETS) × (result.other < FACETS) }
        ensures places { result.size ≤ 8 }
        ensures corners { (i : ℕ) → i < 8 → slice_index result.map i < CORNERS };

    ghost is_dimension: { IsDimension D };

    ghost has_dimension: { HasDimension KIND D };

    ghost corners: { CORNERS ≡ corner_count KIND D };

    ghost edges: { EDGES ≡ edge_count KIND D };

    ghost facets: { FACETS ≡ facet_count KIND D };

    ghost seam_count: { SEAMS ≡ length (seams KIND D) };

    ghost ordered_ends: { HasOrderedEnds KIND D };

    ghost own_edges: { HasOwnEdges KIND D };

    ghost meets_corners: { All (MeetsCorners KIND D) (seams KIND D) };

    ghost keeps_edges: { All (KeepsEdges KIND D) (seams KIND D) };

    ghost two_facets: { D ≡ 3 → (e : ℕ) → e < edge_count KIND 3 → LiesInTwoFacets KIND e };

    ghost basis_spans: { (k : ℕ) → k < corner_count KIND D → SpansAtCorner KIND D k };
}

// The sum of two coordinates of a canonical cell.
fn small_sum(a: i32, b: i32) -> i32
    requires first { IsCoordinate a }
    requires second { IsCoordinate b }
    ensures { result ≡ a +ℤ b }
{
    a + b
}

#[cfg(test)]
mod tests {
    use super::*;
    use std::test::Fail;

    const SQUARE: [(u8, u8); 4] = [(0, 1), (0, 2), (1, 3), (2, 3)];

    const CUBE: [(u8, u8); 12] = [
        (0, 1),
        (0, 2),
        (1, 3),
        (2, 3),
        (0, 4),
        (1, 5),
        (2, 6),
        (3, 7),
        (4, 5),
        (4, 6),
        (5, 7),
        (6, 7),
    ];

    #[test]
    fn edges_of_the_printed_tables(rt: HostRuntime) -> Result<(), Fail> {
        for edge in 0..4u8 {
            assert_eq!(rt;
                <CubeCell<2> as Cell<2>>::edge_ends(edge),
                SQUARE[edge as usize]
            );
            assert_eq!(rt; PyramidCell::edge_ends(edge), SQUARE[edge as usize]);
        }
        for edge in 0..12u8 {
            assert_eq!(rt;
                <CubeCell<3> as Cell<3>>::edge_ends(edge),
                CUBE[edge as usize]
            );
        }
        for corner in 0..4u8 {
            assert_eq!(rt; PyramidCell::edge_ends(4 + corner), (corner, 4));
        }
        assert_eq!(rt; <CubeCell<4> as Cell<4>>::edge_ends(31), (14, 15));
        assert_eq!(rt; <SimplexCell<3> as Cell<3>>::edge_ends(5), (2, 3));
        Ok(())
    }

    #[test]
    fn corners_facets_and_midpoints(rt: HostRuntime) -> Result<(), Fail> {
        assert_eq!(rt; PyramidCell::corner_at(2).as_slice(), [0, 2, 0].as_slice());
        assert_eq!(rt; PyramidCell::corner_at(4).as_slice(), [1, 1, 1].as_slice());
        assert_eq!(rt; PyramidCell::edge_mid(7).as_slice(), [3, 3, 1].as_slice());
        assert_eq!(rt; PyramidCell::facet_mask(4), 0b1_1100);
        assert_eq!(rt; <CubeCell<3> as Cell<3>>::facet_mask(5), 0b1111_0000);
        assert_eq!(rt;
            <SimplexCell<3> as Cell<3>>::corner_at(2).as_slice(),
            [2, 2, 0].as_slice()
        );
        assert_eq!(rt; <CubeCell<4> as Cell<4>>::SEAMS, 4);
        Ok(())
    }

    #[test]
    fn seams_of_the_printed_table(rt: HostRuntime) -> Result<(), Fail> {
        let last = PyramidCell::seam(10);
        assert_eq!(rt; last.facet, 4);
        assert_eq!(rt; last.other, 4);
        assert_eq!(rt; last.map.as_slice(), [2, 3, 4, 0, 0, 0, 0, 0].as_slice());
        assert_eq!(rt; last.same, false);
        assert_eq!(rt; <SimplexCell<3> as Cell<3>>::seam(2).same, true);
        assert_eq!(rt; <SimplexCell<4> as Cell<4>>::seam(3).same, false);
        assert_eq!(rt;
            <CubeCell<3> as Cell<3>>::seam(1).map.as_slice(),
            [0, 1, 4, 5, 0, 0, 0, 0].as_slice()
        );
        Ok(())
    }
}
