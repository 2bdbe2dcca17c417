//! Parts of tallies: counts and sums of faces, of which several may be of one face.

ghost use Rattle.std.specs.Prelude.{◌≡◌, ◌+◌, ◌≤◌, ◌^◌, [], All, OnOk};
ghost use Rattle.std.specs.List.Sorted.{IsNonDecreasingBy};
ghost use Rattle.face_tallies.specs.declared.faces.FaceTally.{FaceTally};
ghost use Rattle.face_tallies.specs.Tallies.{AscendByEdges};
ghost use Rattle.face_tallies.specs.Parts.{IsWeighed, AddsParts, whole_count, put_at};

use crate::faces::FaceTally;
use iso_base::Memory;

/// Adds a part to the one at a place, where that has the same edges, and else puts it at the end.
pub(crate) fn put(parts: &mut Vec<FaceTally>, place: usize, part: FaceTally) -> Result<(), Memory>
    requires few { whole_count parts.old.items + part.count ≤ 2 ^ 62 }
    requires weighed { All IsWeighed parts.old.items }
    requires one_weighed { IsWeighed part }
    ensures { OnOk result (parts.new.items ≡ put_at place part parts.old.items) }
{
    if place < parts.len() {
        let there = parts[place];
        if there.edges == part.edges {
            parts[place] = FaceTally {
                edges: there.edges,
                count: there.count + part.count,
                sum: there.sum + part.sum,
            };
            return Ok(());
        }
    }
    match parts.push(part) {
        Ok(()) => Ok(()),
        Err(_) => Err(Memory),
    }
}

/// Gathers sorted parts into tallies, in place of what they held: one for each set of edges, with the parts' count and
/// sum.
pub(crate) fn merge(parts: &[FaceTally], tallies: &mut Vec<FaceTally>) -> Result<(), Memory>
    requires few { whole_count parts.now ≤ 2 ^ 62 }
    requires weighed { All IsWeighed parts.now }
    requires sorted { IsNonDecreasingBy (λ (t : FaceTally). t.edges) parts.now }
    ensures ascending { OnOk result (AscendByEdges tallies.new.items) }
    ensures adds { OnOk result (AddsParts parts.now [] tallies.new.items) }
{
    tallies.clear();
    for part in parts {
        let last = tallies.len().saturating_sub(1);
        put(tallies, last, *part)?;
    }
    Ok(())
}
