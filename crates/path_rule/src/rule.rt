//! The path rule.

ghost use Rattle.std.specs.Prelude.{◌≡◌, ◌≢◌, ◌<◌, ◌≤◌, true, length, slice_index, All, IfSome, IfNone};
ghost use Rattle.path_rule.specs.PathRule.{NoneHas, TellsPathRule, TellsPathAt, TellsLead, TellsReach};
ghost use Rattle.lists.specs.Bits.{is_set};

use crate::walk::walk_end;
use edge_sets::has_member;

/// Whether in three dimensions, at each bipolar edge, the triangles that have it form one path from a face in one of
/// the two facets that have the edge, through shared faces, to a face in the other, and the path meets each of these
/// triangles once. In other dimensions nothing is asked. The edges of each facet and the bipolar edges are given as
/// sets. The answer is this rule's where the tuples keep the rule of bipolar edges and the rule of faces.
pub fn keeps_path<const D: usize>(facets: &[u32], bipolar: u32, tuples: &[[u8; D]]) -> bool
    requires { All (λ w. All (λ e. e < 32) w) tuples.now }
    ensures { TellsPathRule D facets.now bipolar tuples.now result }
{
    if D != 3 {
        return true;
    }
    for edge in 0..32 {
        if has_member(bipolar, edge) && !has_path(facets, edge, tuples) {
            return false;
        }
    }
    true
}

/// Whether the triangles at an edge form one path from the first facet that has the edge to the second.
fn has_path<const D: usize>(facets: &[u32], edge: u8, tuples: &[[u8; D]]) -> bool
    requires edge { edge < 32 }
    requires edges { All (λ w. All (λ e. e < 32) w) tuples.now }
    ensures { TellsPathAt facets.now edge tuples.now result }
{
    let Some(first) = facet_with(facets, edge, 0) else {
        return false;
    };
    let Some(second) = facet_with(facets, edge, first + 1) else {
        return false;
    };
    leads_across(facets[first], facets[second], edge, tuples)
}

/// The first facet from a number on that has an edge.
fn facet_with(facets: &[u32], edge: u8, from: usize) -> Option<usize>
    requires edge { edge < 32 }
    requires from { from ≤ length facets.now }
    ensures from { IfSome result (λ f. from ≤ f) }
    ensures inside { IfSome result (λ f. f < length facets.now) }
    ensures found { IfSome result (λ f. is_set (slice_index facets.now f) edge ≡ true) }
    ensures before { IfSome result (NoneHas facets.now edge from) }
    ensures none { IfNone result (NoneHas facets.now edge from (length facets.now)) }
{
    for facet in from..facets.len() {
        if has_member(facets[facet], edge) {
            return Some(facet);
        }
    }
    None
}

/// Whether the triangles at an edge form one path from a face in one facet to a face in another.
fn leads_across<const D: usize>(first: u32, second: u32, edge: u8, tuples: &[[u8; D]]) -> bool
    requires edges { All (λ w. All (λ e. e < 32) w) tuples.now }
    ensures { TellsLead first second edge tuples.now result }
{
    for start in 0..32 {
        if start != edge && has_member(first, start) && ends_in(second, edge, start, tuples) {
            return true;
        }
    }
    false
}

/// Whether the walk from a face meets all triangles at the edge and ends at a face in a facet that has the edge.
fn ends_in<const D: usize>(facet: u32, edge: u8, start: u8, tuples: &[[u8; D]]) -> bool
    requires apart { start ≢ edge }
    requires small { start < 32 }
    requires edges { All (λ w. All (λ e. e < 32) w) tuples.now }
    ensures { TellsReach facet edge start tuples.now result }
{
    match walk_end(tuples, edge, start) {
        Some(face) => has_member(facet, face),
        None => false,
    }
}
