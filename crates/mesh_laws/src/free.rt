//! The faces that one simplex alone has.

ghost use Rattle.std.specs.Prelude.{◌≡◌, ◌+◌, ◌^◌, ◌<◌, ◌≤◌, ◌++◌, ◌∷◌, [], true, length, map, sum_by, All, IfOk, OnOk};
ghost use Rattle.std.specs.List.Sorted.{IsSorted, IsPermutation};
ghost use Rattle.std.specs.Cmp.Lexicographic.{slice_cmp};
ghost use Rattle.std.specs.Ordering.{nat_cmp};
ghost use Rattle.lists.specs.Orders.{is_distinct};
ghost use Rattle.iso_model.specs.Faces.{face_without, faces_of, free_face_count};
ghost use Rattle.mesh_laws.specs.FaceKeys.{padded, is_once_at};
ghost use Rattle.mesh_laws.specs.FaceGroups.{AreGroups, TakeFaces, group_of, once_count};

use crate::rounds::push;
use iso_base::Memory;
use std::alloc::Global;

/// The number of different faces that one place in the list of simplices alone has. No simplex has a repeated number.
///
/// Puts the faces into groups by their greatest numbers, and sorts each group: takes time in proportion to the number
/// of faces where a number is in few of them, and to `n log n` for `n` faces in any case. Takes at most 60 bytes for
/// each face in two, three and four dimensions.
pub fn free_faces<const D: usize>(alloc: Global, simplices: &[[u32; D]]) -> Result<u64, Memory>
    requires distinct { All (λ w. is_distinct w ≡ true) simplices.now }
    requires few { length simplices.now < 2 ^ 60 }
    ensures { IfOk result (λ count. count ≡ free_face_count simplices.now) }
{
    let mut groups = empty_groups(alloc, simplices.len() / 2 + 1)?;
    for simplex in simplices {
        add_faces(simplex, &mut groups)?;
    }
    Ok(count_groups(groups))
}

// So many groups without members.
fn empty_groups<const D: usize>(alloc: Global, count: usize) -> Result<Vec<Vec<[u32; D]>>, Memory>
    ensures count { IfOk result (λ groups. length groups.items ≡ count) }
    ensures empty { IfOk result (λ groups. AreGroups groups.items []) }
{
    let Ok(mut groups) = Vec::with_capacity(alloc, count) else {
        return Err(Memory);
    };
    for _ in 0..count {
        push(&mut groups, Vec::new(alloc))?;
    }
    Ok(groups)
}

// Adds the faces of a simplex.
fn add_faces<const D: usize>(simplex: &[u32; D], groups: &mut [Vec<[u32; D]>]) -> Result<(), Memory>
    requires distinct { is_distinct simplex.now ≡ true }
    requires some { 0 < length groups.old }
    ensures taken { OnOk result (TakeFaces groups.old groups.new (map padded (faces_of simplex.now))) }
    ensures few { OnOk result (length (faces_of simplex.now) ≤ D) }
{
    for place in 0..D {
        add_face(face_key(simplex, place), groups)?;
    }
    Ok(())
}

// Adds a face to its group.
fn add_face<const D: usize>(key: [u32; D], groups: &mut [Vec<[u32; D]>]) -> Result<(), Memory>
    requires dimension { 0 < D }
    requires some { 0 < length groups.old }
    ensures { OnOk result (TakeFaces groups.old groups.new (key.entry ∷ [])) }
{
    let at = group_of(&key, groups.len());
    push(&mut groups[at], key)
}

// The group of a face, of so many.
fn group_of<const D: usize>(key: &[u32; D], count: usize) -> usize
    requires dimension { 0 < D }
    requires some { 0 < count }
    ensures value { result ≡ group_of count key.now }
    ensures within { result < count }
{
    key[D - 1] as usize % count
}

/// The face of a simplex without a place, behind a 0, so that it has as many numbers as the simplex.
pub fn face_key<const D: usize>(simplex: &[u32; D], place: usize) -> [u32; D]
    requires { place < D }
    ensures { result ≡ padded (face_without simplex.now place) }
{
    let mut key = *simplex;
    key[place] = 0;
    key.sort_unstable();
    key
}

// How many members of the groups stand once in their group.
fn count_groups<const D: usize>(mut groups: Vec<Vec<[u32; D]>>) -> u64
    requires { sum_by once_count (map (λ g. g.items) groups.items) < 2 ^ 64 }
    ensures { result ≡ sum_by once_count (map (λ g. g.items) groups.entry.items) }
{
    let mut count = 0;
    while let Some(group) = groups.pop() {
        count += count_group(group);
    }
    count
}

// How many members of a group stand there once.
fn count_group<const D: usize>(mut group: Vec<[u32; D]>) -> u64
    ensures { result ≡ once_count group.entry.items }
{
    group.sort_unstable();
    count_once(&group)
}

// How many members of an ascending list stand there once.
fn count_once<const D: usize>(keys: &[[u32; D]]) -> u64
    requires { IsSorted (slice_cmp nat_cmp) keys.now }
    ensures { result ≡ once_count keys.now }
{
    let mut count = 0;
    for place in 0..keys.len() {
        if is_once(keys, place) {
            count += 1;
        }
    }
    count
}

/// Whether the member at a place of an ascending list differs from its neighbours, so that it stands there once.
pub fn is_once<const D: usize>(keys: &[[u32; D]], place: usize) -> bool
    requires ascending { IsSorted (slice_cmp nat_cmp) keys.now }
    requires place { place < length keys.now }
    ensures { result ≡ is_once_at keys.now place }
{
    if place > 0 && keys[place - 1] == keys[place] {
        return false;
    }
    if place + 1 < keys.len() && keys[place + 1] == keys[place] {
        return false;
    }
    true
}
