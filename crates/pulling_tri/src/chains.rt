//! Chains of sets, each a face of the one before that misses its first vertex, and the simplices of their first vertices.

ghost use Rattle.std.specs.Prelude.{◌≡◌, ◌+◌, ◌∷◌, ◌++◌, ◌<◌, [], take, length, map, IfOk, OnOk, Contains};
ghost use Rattle.iso_model.specs.Hulls.{ArePulled};
ghost use Rattle.pulling_tri.specs.PointSets.{point_set, IsOneOf};
ghost use Rattle.pulling_tri.specs.Pulling.{AddsFrom};
ghost use Rattle.iso_model.specs.Dimensions.{IsDimension};

use crate::faces::{faces_without_first, proper_meets};
use crate::sets::{first_point, is_point};
use iso_base::Memory;
use std::alloc::Global;

// The first vertices with one more.
fn with_next<const D: usize>(firsts: &[u8; D], filled: usize, next: u8) -> [u8; D]
    requires { filled < D }
    ensures more { take (filled + 1) result ≡ take filled firsts.now ++ next ∷ [] }
    ensures len { length result ≡ D }
{
    let mut longer = *firsts;
    longer[filled] = next;
    longer
}

// Adds the simplices of all chains whose first vertices begin with the filled ones, and whose next set is this one.
fn go_on<const D: usize>(
    alloc: Global,
    facets: &[u64],
    firsts: &[u8; D],
    filled: usize,
    set: u64,
    simplices: &mut Vec<[u8; D]>,
) -> Result<(), Memory>
    requires dimension { IsDimension D }
    requires room { filled < D }
    ensures { OnOk result (AddsFrom facets.now D (take filled firsts.now) set simplices.old.items simplices.new.items) }
{
    if set == 0 {
        return Ok(());
    }
    let longer = with_next(firsts, filled, first_point(set));
    if filled + 1 == D {
        if is_point(set) {
            return match simplices.push(longer) {
                Ok(()) => Ok(()),
                Err(_) => Err(Memory),
            };
        }
        return Ok(());
    }
    let meets = proper_meets(alloc, facets, set)?;
    let faces = faces_without_first(alloc, &meets, set)?;
    for face in &faces {
        go_on(alloc, &meets, &longer, filled + 1, *face, simplices)?;
    }
    Ok(())
}

/// The pulled simplices of a face of a polytope, each as the ascending tuple of the numbers of its points, each once, in
/// ascending order of the tuples. D is 2, 3 or 4.
///
/// `facets` has the sets of points of the polytope's facets, and `face` is one of them; the same holds of any other set of
/// points. A set is written as a number whose bit i is set where point i, from 0 to 63, is a member.
///
/// The first vertex of a set is its point of least number. The faces of a set are the maximal ones among those of its
/// meets with a facet that are not the set itself. A pulled simplex of the face is the set of the first vertices along a
/// chain of D sets that begins with the face and ends with a single point, in which each set is a face of the one before
/// and misses that one's first vertex. After Bhaniramka, Wenger and Crawfis, "Isosurface construction in any dimension
/// using convex hulls" (2004). The only error is want of memory.
pub fn pull<const D: usize>(
    alloc: Global,
    facets: &[u64],
    face: u64,
) -> Result<Vec<[u8; D]>, Memory>
    requires dimension { IsDimension D }
    ensures { IfOk result (λ simplices. ArePulled (IsOneOf facets.now) D (point_set face) simplices.items) }
{
    let mut simplices = Vec::new(alloc);
    go_on(alloc, facets, &[0; D], 0, face, &mut simplices)?;
    simplices.sort_unstable();
    simplices.dedup();
    Ok(simplices)
}
