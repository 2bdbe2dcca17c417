//! Long lists, put nearly in order by way of groups.
//!
//! Each member has a number, and those with near numbers are put into one group. The groups are then taken one after
//! another: the members of each are put into small groups, and those of a small group are sorted and handed on. So a
//! list of which few members have one number is in order in the end, after a time in proportion to its length.
//! Contracts say only that no member is lost: callers sort what they get, which takes one pass where it is in order.

ghost use Rattle.std.specs.Prelude.{◌≡◌, ◌<◌, ◌++◌, ◌∷◌, [], length, IfOk, OnOk};
ghost use Rattle.std.specs.List.Sorted.{IsPermutation};
ghost use Rattle.mesh_audit.specs.Groups.{members_of};

use crate::sides::push;
use iso_base::Memory;
use std::alloc::Global;

/// How many groups there are.
const GROUPS: usize = 512;

/// The most small groups that a group is put into, as a power of two.
const SMALL_BITS: u32 = 12;

/// What may be put into groups.
pub(crate) trait Member: Copy + Drop {
    /// The number by which members are put into groups.
    fn number(&self) -> u32;

    /// Sorts members.
    fn sort(members: &mut Vec<Self>)
        ensures { IsPermutation members.old.items members.new.items };
}

/// How many numbers belong to a group, and to a small group, as powers of two.
#[derive(Clone, Copy)]
pub(crate) struct Widths {
    group: u32,
    small: u32,
}

impl Widths {
    // The widths for numbers below a bound, which are put into so many groups at most, as a power of two.
    pub(crate) fn new(bound: u32, bits: u32) -> Widths {
        let all = u32::BITS.saturating_sub(bound.leading_zeros());
        let group = all.saturating_sub(bits);
        Widths {
            group,
            small: group.saturating_sub(SMALL_BITS),
        }
    }

    // The part of a number that tells numbers of one group apart.
    fn within(self, number: u32) -> u32 {
        let size = 1u32 << (self.group % 32);
        number & (size - 1)
    }

    // How many small groups a group is put into.
    fn small_groups(self) -> usize
        ensures { 0 < result }
    {
        let bits = self.group.saturating_sub(self.small);
        (1usize << (bits % 64)).max(1)
    }
}

// Groups without members.
pub(crate) fn no_members<T: Member>(alloc: Global) -> Result<Vec<Vec<T>>, Memory>
    ensures some { IfOk result (λ groups. 0 < length groups.items) }
    ensures empty { IfOk result (λ groups. members_of groups.items ≡ []) }
{
    empty_groups(alloc, GROUPS, 0)
}

// So many groups without members, each with some room.
fn empty_groups<T: Member>(alloc: Global, count: usize, room: usize) -> Result<Vec<Vec<T>>, Memory>
    ensures count { IfOk result (λ groups. length groups.items ≡ count) }
    ensures empty { IfOk result (λ groups. members_of groups.items ≡ []) }
{
    let Ok(mut groups) = Vec::with_capacity(alloc, count) else {
        return Err(Memory);
    };
    for _ in 0..count {
        let Ok(group) = Vec::with_capacity(alloc, room) else {
            return Err(Memory);
        };
        push(&mut groups, group)?;
    }
    Ok(groups)
}

// Adds a member to its group.
pub(crate) fn add_member<T: Member>(
    member: T,
    widths: Widths,
    groups: &mut [Vec<T>],
) -> Result<(), Memory>
    requires { 0 < length groups.old }
    ensures count { OnOk result (length groups.new ≡ length groups.old) }
    ensures added { OnOk result (IsPermutation (members_of groups.old ++ member ∷ []) (members_of groups.new)) }
{
    let at = group_of(member.number(), widths.group, groups.len());
    push(&mut groups[at], member)
}

// The group, of so many, that a number belongs to. The greater numbers stand before.
fn group_of(number: u32, width: u32, count: usize) -> usize
    requires { 0 < count }
    ensures { result < count }
{
    let last = count - 1;
    last - last.min((number >> (width % 32)) as usize)
}

// The members of groups, of which there are so many, nearly in order.
pub(crate) fn join_groups<T: Member>(
    alloc: Global,
    mut groups: Vec<Vec<T>>,
    widths: Widths,
    count: usize,
) -> Result<Vec<T>, Memory>
    ensures { IfOk result (λ joined. IsPermutation (members_of groups.items) joined.items) }
{
    let Ok(mut joined) = Vec::with_capacity(alloc, count) else {
        return Err(Memory);
    };
    while let Some(group) = groups.pop() {
        let small = spread(alloc, group, widths)?;
        gather(small, &mut joined)?;
    }
    Ok(joined)
}

// Puts the members of a group into small groups.
fn spread<T: Member>(alloc: Global, group: Vec<T>, widths: Widths) -> Result<Vec<Vec<T>>, Memory>
    ensures { IfOk result (λ groups. IsPermutation group.items (members_of groups.items)) }
{
    let count = widths.small_groups();
    let share = group.len() / count;
    let mut groups = empty_groups(alloc, count, share.saturating_add(share))?;
    for member in &group {
        add_to_small(*member, widths, &mut groups)?;
    }
    Ok(groups)
}

// Adds a member to its small group.
fn add_to_small<T: Member>(member: T, widths: Widths, groups: &mut [Vec<T>]) -> Result<(), Memory>
    requires { 0 < length groups.old }
    ensures count { OnOk result (length groups.new ≡ length groups.old) }
    ensures added { OnOk result (IsPermutation (members_of groups.old ++ member ∷ []) (members_of groups.new)) }
{
    let at = group_of(widths.within(member.number()), widths.small, groups.len());
    push(&mut groups[at], member)
}

// Adds the members of groups to a list, each group sorted, and the last one first.
fn gather<T: Member>(mut groups: Vec<Vec<T>>, joined: &mut Vec<T>) -> Result<(), Memory>
    ensures { OnOk result (IsPermutation (joined.old.items ++ members_of groups.items) joined.new.items) }
{
    while let Some(mut group) = groups.pop() {
        T::sort(&mut group);
        let Ok(()) = joined.append(&mut group) else {
            return Err(Memory);
        };
    }
    Ok(())
}
