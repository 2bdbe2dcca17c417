//! The walk round a vertex, over the triangles at it.

ghost use Rattle.std.specs.Prelude.{◌≡◌, ℕ, ◌+◌, ◌*◌, ◌^◌, ◌<◌, ◌++◌, ◌∷◌, [], List, false, length, replicate, IfSome};
ghost use Rattle.std.specs.Prelude.{IfNone, OnOk, IfOk};
ghost use Rattle.std.specs.List.Sorted.{IsNonDecreasingBy, IsPermutation};
ghost use Rattle.lists.specs.Orders.{has};
ghost use Rattle.mesh_laws.specs.Rounds.{ps_of, qs_of, IsWalkRound, IsFirstWith, rank_of, AreBegins, AreEnds, IsStart};
ghost use Rattle.mesh_laws.specs.Rounds.{IsMeeting, ArePlaced, AreListed, WalksFrom};

use crate::walks::Trail;
use iso_base::Memory;
use std::alloc::Global;

/// A triangle at a vertex k, by its number, and how it reads, turned cyclically to (k, p, q).
#[derive(Clone, Copy, Debug, PartialEq, Eq)]
pub struct Corner {
    pub triangle: u32,
    pub p: u32,
    pub q: u32,
}

/// A place in a list of triangles, with the p of the triangle there.
#[derive(Clone, Copy, Debug, PartialEq, Eq)]
struct Begin {
    p: u32,
    place: u32,
}

/// Room for the work of `walk_round`, which grows with the triangles at one vertex and is used again for the next one.
#[derive(Drop)]
pub struct WalkRoom {
    begins: Vec<Begin>,
    ends: Vec<u32>,
    met: Vec<bool>,
}

impl WalkRoom {
    /// No room yet.
    pub fn new(alloc: Global) -> WalkRoom {
        WalkRoom {
            begins: Vec::new(alloc),
            ends: Vec::new(alloc),
            met: Vec::new(alloc),
        }
    }
}

/// Puts into a trail the walk round a vertex, in place of what the trail held. The triangles at the vertex are given in
/// the order of their numbers.
///
/// Takes time in proportion to `n log n` for `n` triangles. Where memory is refused, the trail is of no use.
pub fn walk_round(corners: &[Corner], room: &mut WalkRoom, trail: &mut Trail) -> Result<(), Memory>
    requires { length corners.now < 2 ^ 32 }
    ensures { OnOk result (IsWalkRound corners.now trail.new) }
{
    trail.closed = meet(corners, room, &mut trail.order)?;
    trail.whole = trail.order.len() == corners.len();
    Ok(())
}

// Puts the numbers of the triangles that the walk meets, and answers whether it closes.
fn meet(corners: &[Corner], room: &mut WalkRoom, order: &mut Vec<u32>) -> Result<bool, Memory>
    requires { length corners.now < 2 ^ 32 }
    ensures { IfOk result (IsMeeting corners.now order.new.items) }
{
    order.clear();
    gather_begins(corners, &mut room.begins)?;
    gather_ends(corners, &mut room.ends)?;
    clear_marks(corners.len(), &mut room.met)?;
    let Some(first) = start_place(corners, &room.ends) else {
        return Ok(false);
    };
    let next = follow(corners, &room.begins, first, &mut room.met, order)?;
    Ok(next == Some(first))
}

// Gathers the begins of triangles, in order.
fn gather_begins(corners: &[Corner], begins: &mut Vec<Begin>) -> Result<(), Memory>
    requires { length corners.now < 2 ^ 32 }
    ensures { OnOk result (AreBegins (ps_of corners.now) begins.new.items) }
{
    list_begins(corners, begins)?;
    sort_begins(begins);
    Ok(())
}

// Lists the begins of triangles, place by place.
fn list_begins(corners: &[Corner], begins: &mut Vec<Begin>) -> Result<(), Memory>
    requires { length corners.now < 2 ^ 32 }
    ensures placed { OnOk result (ArePlaced (ps_of corners.now) begins.new.items) }
    ensures listed { OnOk result (AreListed (ps_of corners.now) (length corners.now) begins.new.items) }
{
    begins.clear();
    for (place, corner) in corners.iter().enumerate() {
        let begin = Begin {
            p: corner.p,
            place: place as u32,
        };
        push(begins, begin)?;
    }
    Ok(())
}

// Puts begins in order.
fn sort_begins(begins: &mut Vec<Begin>)
    ensures sorted { IsNonDecreasingBy rank_of begins.new.items }
    ensures reordered { IsPermutation begins.old.items begins.new.items }
{
    begins.sort_unstable_by_key(|begin| rank(begin));
}

// What begins are ordered by: their p, and where they have the same p their places.
fn rank(begin: &Begin) -> u64
    ensures { result ≡ rank_of begin.now }
{
    (u64::from(begin.p) << 32) + u64::from(begin.place)
}

// Gathers the ends of triangles, in order.
fn gather_ends(corners: &[Corner], ends: &mut Vec<u32>) -> Result<(), Memory>
    ensures { OnOk result (AreEnds (qs_of corners.now) ends.new.items) }
{
    ends.clear();
    for corner in corners {
        push(ends, corner.q)?;
    }
    ends.sort_unstable();
    Ok(())
}

// Puts as many marks as there are triangles, none of which is set.
fn clear_marks(count: usize, marks: &mut Vec<bool>) -> Result<(), Memory>
    ensures { OnOk result (marks.new.items ≡ replicate count false) }
{
    marks.clear();
    match marks.resize(count, false) {
        Ok(()) => Ok(()),
        Err(_) => Err(Memory),
    }
}

// The first place of which the p is no q, or the first place where there is none.
fn start_place(corners: &[Corner], ends: &[u32]) -> Option<usize>
    requires { AreEnds (qs_of corners.now) ends.now }
    ensures start { IfSome result (IsStart (ps_of corners.now) (qs_of corners.now)) }
    ensures none { IfNone result (length corners.now ≡ 0) }
{
    for (place, corner) in corners.iter().enumerate() {
        if !has_end(ends, corner.p) {
            return Some(place);
        }
    }
    if corners.is_empty() { None } else { Some(0) }
}

// Whether some end is a vertex.
fn has_end(ends: &[u32], vertex: u32) -> bool
    ensures { (qs : List ℕ) → AreEnds qs ends.now → result ≡ has qs vertex }
{
    ends.binary_search(&vertex).is_ok()
}

// The first place of which the p is this one.
fn place_with(begins: &[Begin], p: u32) -> Option<usize>
    ensures { (ps : List ℕ) → AreBegins ps begins.now → IsFirstWith ps p result }
{
    let index = begins.partition_point(|begin| begin.p < p);
    if index < begins.len() && begins[index].p == p {
        Some(begins[index].place as usize)
    } else {
        None
    }
}

// Follows the walk from the triangle at a place, and answers the place to which the last triangle leads.
fn follow(
    corners: &[Corner],
    begins: &[Begin],
    first: usize,
    met: &mut [bool],
    order: &mut Vec<u32>,
) -> Result<Option<usize>, Memory>
    requires begins { AreBegins (ps_of corners.now) begins.now }
    requires first { first < length corners.now }
    requires met { met.old ≡ replicate (length corners.now) false }
    requires order { order.old.items ≡ [] }
    ensures walks { IfOk result (WalksFrom corners.now first order.new.items) }
    ensures inside { IfOk result (λ next. IfSome next (λ place. place < length corners.now)) }
{
    let mut next = Some(first);
    for _ in 0..corners.len() {
        let Some(place) = next else {
            return Ok(None);
        };
        if met[place] {
            return Ok(next);
        }
        met[place] = true;
        push(order, corners[place].triangle)?;
        next = place_with(begins, corners[place].q);
    }
    Ok(next)
}

// Adds a member to the end of a list.
pub(crate) fn push<T: Drop>(items: &mut Vec<T>, item: T) -> Result<(), Memory>
    ensures { OnOk result (items.new.items ≡ items.old.items ++ item ∷ []) }
{
    match items.push(item) {
        Ok(()) => Ok(()),
        Err(_) => Err(Memory),
    }
}
