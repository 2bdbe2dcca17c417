//! The members of a set, as a list and by their places in a list.

ghost use Rattle.std.specs.Prelude.{◌≡◌, ℕ, ◌^◌, ◌<◌, ◌≤◌, ◌++◌, ◌∷◌, [], filter, length, All, IfOk, OnOk};
ghost use Rattle.lists.specs.Orders.{numbers};
ghost use Rattle.seam_traces.specs.Traces.{places};
ghost use Rattle.lists.specs.Bits.{is_set};

use edge_sets::has_member;
use iso_base::Memory;
use std::alloc::Global;

/// Adds a member to the end of a list.
pub(crate) fn push<T: Drop>(items: &mut Vec<T>, item: T) -> Result<(), Memory>
    ensures { OnOk result (items.new.items ≡ items.old.items ++ item ∷ []) }
{
    match items.push(item) {
        Ok(()) => Ok(()),
        Err(_) => Err(Memory),
    }
}

/// The members of a set that are below `count`, in ascending order.
pub(crate) fn members_of(alloc: Global, set: u32, count: usize) -> Result<Vec<u8>, Memory>
    requires { count ≤ 32 }
    ensures { IfOk result (λ members. members.items ≡ filter (is_set set) (numbers count)) }
{
    let mut members = Vec::new(alloc);
    for number in 0..count {
        let member = number as u8;
        if has_member(set, member) {
            push(&mut members, member)?;
        }
    }
    Ok(members)
}

/// Which members of a list are in a set: bit i is set where the member at place i is.
pub(crate) fn places_of(members: &[u8], set: u32) -> u32
    requires few { length members.now ≤ 32 }
    requires numbers { All (λ k. k < 32) members.now }
    ensures places { result ≡ places members.now set }
    ensures few { result < 2 ^ length members.now }
{
    let mut places = 0;
    for (place, member) in members.iter().enumerate() {
        if has_member(set, *member) {
            places += 1 << place;
        }
    }
    places
}
