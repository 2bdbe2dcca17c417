//! Walks through the triangles at an edge. A face at the edge is told by its other edge.

ghost use Rattle.std.specs.Prelude.{◌≡◌, ◌≢◌, ℕ, ◌<◌, length, slice_index_or, All, None, IfSome, IfNone};
ghost use Rattle.lists.specs.Orders.{has};
ghost use Rattle.iso_model.specs.Acceptance.{others_at};
ghost use Rattle.path_rule.specs.PathRule.{third, IsNext, IsLast, SharesByTwo, IsFree, TellsEnd, IsBoundedBy};

/// Whether a tuple has an edge.
fn has_edge<const D: usize>(tuple: &[u8; D], edge: u8) -> bool
    ensures { result ≡ has tuple.now edge }
{
    tuple.contains(&edge)
}

/// The number of triangles that have an edge.
fn triangle_count<const D: usize>(tuples: &[[u8; D]], edge: u8) -> usize
    ensures { result ≡ length (others_at edge tuples.now) }
{
    let mut count = 0;
    for tuple in tuples {
        if has_edge(tuple, edge) {
            count += 1;
        }
    }
    count
}

/// The third edge of a triangle, where it has two given ones.
fn third_edge<const D: usize>(tuple: &[u8; D], edge: u8, other: u8) -> Option<u8>
    ensures { result ≡ third edge other tuple.now }
{
    if !has_edge(tuple, edge) || !has_edge(tuple, other) {
        return None;
    }
    for third in tuple {
        if *third != edge && *third != other {
            return Some(*third);
        }
    }
    None
}

/// The first triangle other than the present one that has a face, by its number, and its third edge.
fn next_triangle<const D: usize>(
    tuples: &[[u8; D]],
    edge: u8,
    other: u8,
    present: Option<usize>,
) -> Option<(usize, u8)>
    ensures next { IfSome result (λ r. IsNext edge other present tuples.now r.0 r.1) }
    ensures none { IfNone result (IsLast edge other present tuples.now) }
{
    for (number, tuple) in tuples.iter().enumerate() {
        if present != Some(number) {
            if let Some(third) = third_edge(tuple, edge, other) {
                return Some((number, third));
            }
        }
    }
    None
}

/// The last face of the walk from a face through shared faces; `None` where the walk ends before it has met as many
/// triangles as there are at the edge.
pub(crate) fn walk_end<const D: usize>(tuples: &[[u8; D]], edge: u8, start: u8) -> Option<u8>
    requires apart { start ≢ edge }
    ensures end { SharesByTwo edge tuples.now → IsFree edge start tuples.now → TellsEnd edge start tuples.now result }
    ensures small { IfSome result (λ y. (m : ℕ) → start < m → All (λ w. All (λ e. e < m) w) tuples.now → y < m) }
    ensures met { 0 < length (others_at edge tuples.now) → IfSome result (IsBoundedBy tuples.now) }
{
    let mut face = start;
    let mut present = None;
    for _ in 0..triangle_count(tuples, edge) {
        let (triangle, third) = next_triangle(tuples, edge, face, present)?;
        present = Some(triangle);
        face = third;
    }
    Some(face)
}
