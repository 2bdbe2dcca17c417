//! The rule of faces.

ghost use Rattle.std.specs.Prelude.{◌≡◌, ◌==◌, count_by, bit_and};
ghost use Rattle.face_tallies.specs.Tallies.{TellsFaceRule};
ghost use Rattle.face_tallies.specs.Parts.{is_right_in};

use crate::faces::FaceTally;

/// Whether every face in no facet has count 2 and sum 0, every face in exactly one facet has count 1, and no face lies
/// in two facets. The edges of each facet are given as a set.
pub fn keeps_faces(facets: &[u32], tallies: &[FaceTally]) -> bool
    ensures { TellsFaceRule facets.now tallies.now result }
{
    for tally in tallies {
        if !is_right(facets, tally) {
            return false;
        }
    }
    true
}

// Whether a face has the count and the sum that are asked in the facets in which it lies.
fn is_right(facets: &[u32], tally: &FaceTally) -> bool
    ensures { result ≡ is_right_in facets.now tally.now }
{
    match facets_with(facets, tally.edges) {
        0 => tally.count == 2 && tally.sum == 0,
        1 => tally.count == 1,
        _ => false,
    }
}

// The number of facets that have all the edges.
fn facets_with(facets: &[u32], edges: u32) -> usize
    ensures { result ≡ count_by (λ facet. bit_and edges facet == edges) facets.now }
{
    facets
        .iter()
        .filter(|facet| edges & **facet == edges)
        .count()
}
