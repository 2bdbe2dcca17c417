//! The faces of simplices with their signs: the first of them that is not glued, or how many are in one simplex alone.
//!
//! A face is glued exactly where no two simplices have it with the same sign. So the faces are sorted, each with its
//! sign behind its numbers, and all of them are glued where none stands twice. Without their signs they are still in
//! order, and those that then stand once are in one simplex alone.

ghost use Rattle.std.specs.Prelude.{◌≡◌, ◌<◌, ◌++◌, ◌∷◌, [], ◌%◌, true, length, map, nat_lt, count_by, IfOk, OnOk};
ghost use Rattle.std.specs.Prelude.{IfNone, IfSome};
ghost use Rattle.std.specs.List.{list_all};
ghost use Rattle.std.specs.List.Sorted.{IsPermutation, IsSorted};
ghost use Rattle.std.specs.Cmp.Lexicographic.{slice_cmp};
ghost use Rattle.std.specs.Ordering.{nat_cmp};
ghost use Rattle.lists.specs.Orders.{is_distinct, inversions, same_list};
ghost use Rattle.iso_model.specs.Faces.{face_without};
ghost use Rattle.mesh_laws.specs.FaceKeys.{is_once};
ghost use Rattle.mesh_laws.specs.FaceGroups.{once_count};
ghost use Rattle.mesh_audit.specs.Findings.{NoneRepeats, AllGlued};
ghost use Rattle.mesh_audit.specs.Groups.{members_of};
ghost use Rattle.mesh_audit.specs.SignedKeys.{signed_key, signed_face, signed_faces_of, all_signed_faces, unsigned};
ghost use Rattle.mesh_audit.specs.SignedKeys.{AreSignedFaces, HasNoWrongPlace, IsLeastSide, IsLeastWrongPlace, IsWrongAnswer};
ghost use Rattle.mesh_audit.specs.Sides.{AreSides, HasPlaceBelow};

use crate::groups::{Member, Widths, add_member, join_groups, no_members};
use iso_base::Memory;
use mesh_laws::{count_below, face_key, is_once, order_parity};
use std::alloc::Global;

/// The faces are put into so many groups at most, as a power of two.
const GROUP_BITS: u32 = 9;

/// What is found at the faces of simplices.
#[derive(Clone, Copy)]
pub(crate) enum Sides {
    /// Each face is glued, and so many different ones are in one simplex alone.
    Glued { boundary: u64 },
    /// The least simplex that has a face that is not glued, and the least place without which it is such a face.
    Wrong { number: usize, place: usize },
}

impl<const D: usize> Member for [u32; D] {
    fn number(&self) -> u32 {
        if D == 0 { 0 } else { self[0] }
    }

    fn sort(members: &mut Vec<[u32; D]>) {
        members.sort_unstable();
    }
}

// What is found at the faces of simplices. Their numbers are mostly below a bound.
pub(crate) fn judge_sides<const D: usize>(
    alloc: Global,
    simplices: &[[u32; D]],
    bound: u32,
) -> Result<Sides, Memory>
    requires { NoneRepeats simplices.now }
    ensures sides { IfOk result (AreSides simplices.now) }
    ensures inside { IfOk result (HasPlaceBelow D) }
{
    let keys = signed_faces(alloc, simplices, bound)?;
    match wrong_side(simplices, &keys) {
        Some((number, place)) => Ok(Sides::Wrong { number, place }),
        None => Ok(Sides::Glued {
            boundary: count_unsigned(keys),
        }),
    }
}

// The faces of all simplices with their signs, in ascending order.
fn signed_faces<const D: usize>(
    alloc: Global,
    simplices: &[[u32; D]],
    bound: u32,
) -> Result<Vec<[u32; D]>, Memory>
    requires { NoneRepeats simplices.now }
    ensures { IfOk result (λ keys. AreSignedFaces simplices.now keys.items) }
{
    let Some(count) = simplices.len().checked_mul(D) else {
        return Err(Memory);
    };
    let widths = Widths::new(bound, GROUP_BITS);
    let groups = group_all_faces(alloc, simplices, widths)?;
    let mut keys = join_groups(alloc, groups, widths, count)?;
    keys.sort_unstable();
    Ok(keys)
}

// The faces of all simplices with their signs, in groups.
fn group_all_faces<const D: usize>(
    alloc: Global,
    simplices: &[[u32; D]],
    widths: Widths,
) -> Result<Vec<Vec<[u32; D]>>, Memory>
    requires { NoneRepeats simplices.now }
    ensures { IfOk result (λ groups. IsPermutation (all_signed_faces simplices.now) (members_of groups.items)) }
{
    let mut groups = no_members(alloc)?;
    for simplex in simplices {
        group_faces(simplex, widths, &mut groups)?;
    }
    Ok(groups)
}

// Puts the faces of a simplex with their signs into their groups.
fn group_faces<const D: usize>(
    simplex: &[u32; D],
    widths: Widths,
    groups: &mut [Vec<[u32; D]>],
) -> Result<(), Memory>
    requires distinct { is_distinct simplex.now ≡ true }
    requires some { 0 < length groups.old }
    ensures count { OnOk result (length groups.new ≡ length groups.old) }
    ensures added { OnOk result
        (IsPermutation (members_of groups.old ++ signed_faces_of simplex.now) (members_of groups.new)) }
{
    let parity = order_parity(simplex);
    for place in 0..D {
        add_member(signed_face(simplex, place, parity), widths, groups)?;
    }
    Ok(())
}

// The face of a simplex without a place, with its sign, where the parity of the simplex is known.
fn signed_face<const D: usize>(simplex: &[u32; D], place: usize, parity: usize) -> [u32; D]
    requires distinct { is_distinct simplex.now ≡ true }
    requires place { place < D }
    requires parity { parity ≡ inversions simplex.now % 2 }
    ensures { result ≡ signed_face simplex.now place }
{
    let sign = (parity + count_below(simplex, simplex[place]) % 2) % 2;
    signed_key(simplex, place, sign as u32)
}

// The face of a simplex without a place, with a sign behind its numbers.
fn signed_key<const D: usize>(simplex: &[u32; D], place: usize, sign: u32) -> [u32; D]
    requires { place < D }
    ensures { result ≡ signed_key sign (face_without simplex.now place) }
{
    let mut key = face_key(simplex, place);
    key[0] = sign;
    key.rotate_left(1);
    key
}

// The least simplex that has a face that is not glued, and the least place without which it is such a face.
fn wrong_side<const D: usize>(simplices: &[[u32; D]], keys: &[[u32; D]]) -> Option<(usize, usize)>
    requires distinct { NoneRepeats simplices.now }
    requires keys { AreSignedFaces simplices.now keys.now }
    ensures none { IfNone result (AllGlued simplices.now) }
    ensures some { IfSome result (IsLeastSide simplices.now) }
    ensures inside { IfSome result (λ found. found.1 < D) }
{
    if are_all_once(keys) {
        return None;
    }
    least_wrong_side(simplices, keys)
}

// Whether each member of an ascending list stands there once.
fn are_all_once<const D: usize>(keys: &[[u32; D]]) -> bool
    requires { IsSorted (slice_cmp nat_cmp) keys.now }
    ensures { result ≡ list_all (is_once keys.now) keys.now }
{
    for place in 0..keys.len() {
        if !is_once(keys, place) {
            return false;
        }
    }
    true
}

// The least simplex that has a face that is not glued, and the least place without which it is such a face.
fn least_wrong_side<const D: usize>(
    simplices: &[[u32; D]],
    keys: &[[u32; D]],
) -> Option<(usize, usize)>
    requires distinct { NoneRepeats simplices.now }
    requires keys { AreSignedFaces simplices.now keys.now }
    ensures none { IfNone result (AllGlued simplices.now) }
    ensures some { IfSome result (IsLeastSide simplices.now) }
    ensures inside { IfSome result (λ found. found.1 < D) }
{
    for (number, simplex) in simplices.iter().enumerate() {
        if let Some(place) = least_wrong_place(simplex, keys) {
            return Some((number, place));
        }
    }
    None
}

// The least place of a simplex without which it is a face that is not glued, by the faces of all simplices.
fn least_wrong_place<const D: usize>(simplex: &[u32; D], keys: &[[u32; D]]) -> Option<usize>
    requires { IsSorted (slice_cmp nat_cmp) keys.now }
    ensures none { IfNone result (HasNoWrongPlace simplex.now keys.now) }
    ensures some { IfSome result (IsLeastWrongPlace simplex.now keys.now) }
    ensures inside { IfSome result (λ place. place < D) }
{
    for place in 0..D {
        if is_wrong_without(simplex, place, keys) {
            return Some(place);
        }
    }
    None
}

// Whether the face of a simplex without a place is not glued, by the faces of all simplices.
fn is_wrong_without<const D: usize>(simplex: &[u32; D], place: usize, keys: &[[u32; D]]) -> bool
    requires place { place < D }
    requires sorted { IsSorted (slice_cmp nat_cmp) keys.now }
    ensures { IsWrongAnswer simplex.now keys.now place result }
{
    if stands_twice(keys, &signed_key(simplex, place, 0)) {
        return true;
    }
    stands_twice(keys, &signed_key(simplex, place, 1))
}

// Whether a list that ascends has a member more than once.
fn stands_twice<const D: usize>(keys: &[[u32; D]], key: &[u32; D]) -> bool
    requires { IsSorted (slice_cmp nat_cmp) keys.now }
    ensures { result ≡ nat_lt 1 (count_by (same_list key.now) keys.now) }
{
    match keys.binary_search(key) {
        Ok(place) => !is_once(keys, place),
        Err(_) => false,
    }
}

// How many faces stand once without their signs.
fn count_unsigned<const D: usize>(mut keys: Vec<[u32; D]>) -> u64
    ensures { result ≡ once_count (map unsigned keys.entry.items) }
{
    clear_signs(&mut keys);
    keys.sort_unstable();
    count_once(&keys)
}

// Makes each sign a 0.
fn clear_signs<const D: usize>(keys: &mut [[u32; D]])
    ensures { keys.new ≡ map unsigned keys.old }
{
    for place in 0..keys.len() {
        clear_sign(&mut keys[place]);
    }
}

fn clear_sign<const D: usize>(key: &mut [u32; D])
    ensures { key.new ≡ unsigned key.old }
{
    if D > 0 {
        key[D - 1] = 0;
    }
}

// How many members of an ascending list stand there once.
fn count_once<const D: usize>(keys: &[[u32; D]]) -> u64
    requires { IsSorted (slice_cmp nat_cmp) keys.now }
    ensures { result ≡ once_count keys.now }
{
    let mut count = 0;
    for place in 0..keys.len() {
        if is_once(keys, place) {
            count += 1;
        }
    }
    count
}

// Adds a member to the end of a list.
pub(crate) fn push<T: Drop>(items: &mut Vec<T>, item: T) -> Result<(), Memory>
    ensures { OnOk result (items.new.items ≡ items.old.items ++ item ∷ []) }
{
    match items.push(item) {
        Ok(()) => Ok(()),
        Err(_) => Err(Memory),
    }
}
