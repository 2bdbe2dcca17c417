//! The triangles at each vertex, and the first vertex where they are neither one cycle nor one path.
//!
//! The pairs of a vertex and a triangle there are put in order by way of groups, so that those at one vertex stand side
//! by side.

ghost use Rattle.std.specs.Prelude.{◌≡◌, ◌+◌, ◌<◌, ◌≤◌, ◌^◌, ◌++◌, ◌∷◌, [], length, All, IfOk, OnOk, IfNone, IfSome};
ghost use Rattle.std.specs.List.Sorted.{IsNonDecreasingBy, IsPermutation};
ghost use Rattle.mesh_audit.specs.Findings.{NoneRepeats, is_trail_right};
ghost use Rattle.mesh_audit.specs.Groups.{members_of};
ghost use Rattle.mesh_audit.specs.VertexRuns.{rank_of, vertex_of, incidences_of, AreGrouped, AreIncidences};
ghost use Rattle.mesh_audit.specs.VertexRuns.{corner_at, AreCornersOf, IsRightAnswer, IsRun, NoWrongLink, IsLeastLink};

use crate::groups::{Member, Widths, add_member, join_groups, no_members};
use crate::sides::push;
use iso_base::Memory;
use mesh_laws::{Corner, Trail, WalkRoom, turned, walk_round};
use std::alloc::Global;

/// The incidences are put into so many groups at most, as a power of two. Their groups are larger than those of faces,
/// so that an allocator that gives back blocks of that size at once gives these back too.
const GROUP_BITS: u32 = 7;

/// A vertex and a triangle there, by their numbers.
#[derive(Clone, Copy, Debug, PartialEq, Eq)]
struct Incidence {
    vertex: u32,
    triangle: u32,
}

impl Member for Incidence {
    fn number(&self) -> u32 {
        self.vertex
    }

    fn sort(members: &mut Vec<Incidence>) {
        sort_incidences(members);
    }
}

/// Room for the walk round one vertex, which is used again for the next one.
#[derive(Drop)]
struct Round {
    corners: Vec<Corner>,
    room: WalkRoom,
    trail: Trail,
}

impl Round {
    fn new(alloc: Global) -> Round {
        Round {
            corners: Vec::new(alloc),
            room: WalkRoom::new(alloc),
            trail: Trail::new(alloc),
        }
    }
}

// The least vertex that has triangles, but neither one cycle of them, of three or more, nor one path. The numbers of
// vertices are mostly below a bound.
pub(crate) fn wrong_link<const D: usize>(
    alloc: Global,
    simplices: &[[u32; D]],
    bound: u32,
) -> Result<Option<u32>, Memory>
    requires dimension { D ≡ 3 }
    requires distinct { NoneRepeats simplices.now }
    requires few { length simplices.now < 2 ^ 30 }
    ensures none { IfOk result (λ vertex. IfNone vertex (NoWrongLink simplices.now)) }
    ensures some { IfOk result (λ vertex. IfSome vertex (IsLeastLink simplices.now)) }
{
    let incidences = incidences(alloc, simplices, bound)?;
    let mut round = Round::new(alloc);
    let mut start = 0;
    while start < incidences.len() {
        let end = run_end(&incidences, start);
        if !is_linked(simplices, &incidences[start..end], &mut round)? {
            return Ok(Some(incidences[start].vertex));
        }
        start = end;
    }
    Ok(None)
}

// The incidences of all triangles, in order. The numbers of vertices are mostly below a bound.
fn incidences<const D: usize>(
    alloc: Global,
    simplices: &[[u32; D]],
    bound: u32,
) -> Result<Vec<Incidence>, Memory>
    requires dimension { D ≡ 3 }
    requires distinct { NoneRepeats simplices.now }
    requires few { length simplices.now < 2 ^ 30 }
    ensures { IfOk result (λ incidences. AreIncidences simplices.now incidences.items) }
{
    let Some(count) = simplices.len().checked_mul(D) else {
        return Err(Memory);
    };
    let widths = Widths::new(bound, GROUP_BITS);
    let groups = group_all_incidences(alloc, simplices, widths)?;
    let mut incidences = join_groups(alloc, groups, widths, count)?;
    sort_incidences(&mut incidences);
    Ok(incidences)
}

// The incidences of all triangles, in groups.
fn group_all_incidences<const D: usize>(
    alloc: Global,
    simplices: &[[u32; D]],
    widths: Widths,
) -> Result<Vec<Vec<Incidence>>, Memory>
    requires dimension { D ≡ 3 }
    requires distinct { NoneRepeats simplices.now }
    requires few { length simplices.now < 2 ^ 30 }
    ensures { IfOk result (λ groups. AreGrouped (length simplices.now) simplices.now groups.items) }
{
    let mut groups = no_members(alloc)?;
    for (number, simplex) in simplices.iter().enumerate() {
        group_incidences(number as u32, simplex, widths, &mut groups)?;
    }
    Ok(groups)
}

// Puts the incidences of a triangle into their groups.
fn group_incidences<const D: usize>(
    triangle: u32,
    simplex: &[u32; D],
    widths: Widths,
    groups: &mut [Vec<Incidence>],
) -> Result<(), Memory>
    requires { 0 < length groups.old }
    ensures long { OnOk result (length simplex.now ≡ D) }
    ensures count { OnOk result (length groups.new ≡ length groups.old) }
    ensures added { OnOk result
        (IsPermutation (members_of groups.old ++ incidences_of triangle simplex.now) (members_of groups.new)) }
{
    for vertex in simplex {
        let incidence = Incidence {
            vertex: *vertex,
            triangle,
        };
        add_member(incidence, widths, groups)?;
    }
    Ok(())
}

// Puts incidences in order.
fn sort_incidences(incidences: &mut Vec<Incidence>)
    ensures sorted { IsNonDecreasingBy rank_of incidences.new.items }
    ensures reordered { IsPermutation incidences.old.items incidences.new.items }
{
    incidences.sort_unstable_by_key(|incidence| rank(incidence));
}

// What incidences are ordered by: their vertex, and where they have the same vertex their triangle.
fn rank(incidence: &Incidence) -> u64
    ensures { result ≡ rank_of incidence.now }
{
    (u64::from(incidence.vertex) << 32) + u64::from(incidence.triangle)
}

// The end of the run of incidences at one vertex that begins at a place.
fn run_end(incidences: &[Incidence], start: usize) -> usize
    requires sorted { IsNonDecreasingBy vertex_of incidences.now }
    requires start { start < length incidences.now }
    ensures { IsRun incidences.now start result }
{
    let vertex = incidences[start].vertex;
    let mut end = start + 1;
    while end < incidences.len() && incidences[end].vertex == vertex {
        end += 1;
    }
    end
}

// Whether the triangles at a vertex are one cycle, of three or more, or one path.
fn is_linked<const D: usize>(
    simplices: &[[u32; D]],
    run: &[Incidence],
    round: &mut Round,
) -> Result<bool, Memory>
    requires dimension { D ≡ 3 }
    requires inside { All (λ e. e.triangle < length simplices.now) run.now }
    requires few { length run.now < 2 ^ 32 }
    ensures { IfOk result (IsRightAnswer simplices.now run.now) }
{
    gather_corners(simplices, run, &mut round.corners)?;
    walk_round(&round.corners, &mut round.room, &mut round.trail)?;
    Ok(is_trail_right(&round.trail))
}

// Gathers the triangles at a vertex, each with how it reads there.
fn gather_corners<const D: usize>(
    simplices: &[[u32; D]],
    run: &[Incidence],
    corners: &mut Vec<Corner>,
) -> Result<(), Memory>
    requires dimension { D ≡ 3 }
    requires inside { All (λ e. e.triangle < length simplices.now) run.now }
    ensures few { OnOk result (length corners.new.items ≤ length run.now) }
    ensures gathered { OnOk result (AreCornersOf simplices.now run.now corners.new.items) }
{
    corners.clear();
    for incidence in run {
        add_corner(&simplices[incidence.triangle as usize], incidence, corners)?;
    }
    Ok(())
}

// Adds a triangle with how it reads at a vertex.
fn add_corner<const D: usize>(
    simplex: &[u32; D],
    incidence: &Incidence,
    corners: &mut Vec<Corner>,
) -> Result<(), Memory>
    requires dimension { D ≡ 3 }
    ensures { OnOk result (corners.new.items ≡ corners.old.items ++ corner_at incidence.now simplex.now) }
{
    let triangle = [simplex[0], simplex[1], simplex[2]];
    match turned(&triangle, incidence.vertex) {
        Some((p, q)) => {
            let corner = Corner {
                triangle: incidence.triangle,
                p,
                q,
            };
            push(corners, corner)
        }
        None => Ok(()),
    }
}

// Whether a walk met each triangle once, and does not close with fewer than three.
fn is_trail_right(trail: &Trail) -> bool
    ensures { result ≡ is_trail_right trail.now }
{
    trail.whole && !(trail.closed && trail.order.len() < 3)
}
