//! The faces of a set of points that miss its first vertex.

ghost use Rattle.std.specs.Prelude.{◌≡◌, ◌<◌, IfOk};
ghost use Rattle.pulling_tri.specs.Meets.{AreMeets, HasNext, meets_in_turn, is_greatest, maximal_without};

use crate::sets::{first_point, misses};
use iso_base::Memory;
use std::alloc::Global;

// The meets of a set with each facet, without those that are the set itself.
fn meets_with(alloc: Global, facets: &[u64], set: u64) -> Result<Vec<u64>, Memory>
    ensures { IfOk result (λ meets. meets.items ≡ meets_in_turn facets.now set) }
{
    match facets
        .iter()
        .map(|facet| set & *facet)
        .filter(|meet| *meet != set)
        .collect::<Vec<u64>>(alloc)
    {
        Ok(meets) => Ok(meets),
        Err(_) => Err(Memory),
    }
}

// The same, each once. Of the parts of the set they are the same faces as the facets are.
pub(crate) fn proper_meets(alloc: Global, facets: &[u64], set: u64) -> Result<Vec<u64>, Memory>
    ensures { IfOk result (λ meets. AreMeets facets.now set meets.items) }
{
    let mut meets = meets_with(alloc, facets, set)?;
    meets.sort_unstable();
    meets.dedup();
    Ok(meets)
}

// No other one of the meets has all points of this one.
fn is_maximal(meet: u64, meets: &[u64]) -> bool
    ensures { result ≡ is_greatest meets.now meet }
{
    meets
        .iter()
        .all(|other| *other == meet || meet & *other != meet)
}

// The maximal ones of the meets that miss this point.
fn maximal_meets(alloc: Global, meets: &[u64], point: u8) -> Result<Vec<u64>, Memory>
    requires { point < 64 }
    ensures { IfOk result (λ faces. faces.items ≡ maximal_without meets.now point) }
{
    match meets
        .iter()
        .copied()
        .filter(|meet| misses(*meet, point) && is_maximal(*meet, meets))
        .collect::<Vec<u64>>(alloc)
    {
        Ok(faces) => Ok(faces),
        Err(_) => Err(Memory),
    }
}

// The faces of a set that miss its first vertex, from its meets with the facets.
pub(crate) fn faces_without_first(
    alloc: Global,
    meets: &[u64],
    set: u64,
) -> Result<Vec<u64>, Memory>
    requires { 0 < set }
    ensures { IfOk result (λ faces. HasNext meets.now set faces.items) }
{
    maximal_meets(alloc, meets, first_point(set))
}
