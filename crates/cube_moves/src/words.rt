//! Labels moved as whole words.

ghost use Rattle.std.specs.Prelude.{◌≡◌, ℕ, ◌^◌, ◌<◌, [], length, slice_index_or};
ghost use Rattle.std.specs.Int.{bit_at};
ghost use Rattle.cube_moves.specs.Exchanges.{IsExchange, partner};
ghost use Rattle.cube_moves.specs.LabelLists.{AreByOrders, AreByFlips};
ghost use Rattle.lists.specs.Orders.{orders};
ghost use Rattle.iso_model.specs.Dimensions.{IsDimension};

use crate::tables::{COUNTS, FLIPS, ORDERS, STEPS, SWAPS};

/// An exchange of corners in pairs: those of `kept` stay, each of `lower` is exchanged with the one that is `shift` above
/// it. Sets of corners are written as numbers.
#[derive(Clone, Copy)]
pub(crate) struct Exchange {
    pub kept: u32,
    pub lower: u32,
    pub shift: u32,
}

// The label with the signs of the corners exchanged.
fn exchanged<const D: usize>(label: u32, by: &Exchange) -> u32
    requires dimension { IsDimension D }
    requires label { label < 2 ^ (2 ^ D) }
    requires by { IsExchange D by.now }
    ensures below { result < 2 ^ (2 ^ D) }
    ensures signs { (c : ℕ) → c < 2 ^ D → bit_at result c ≡ bit_at label (partner by.now c) }
{
    (label & by.kept) | ((label & by.lower) << by.shift) | ((label >> by.shift) & by.lower)
}

// The labels to which the orders of the axes carry a label without flips, in ascending order of the orders.
pub(crate) fn by_orders<const D: usize>(label: u32) -> [u32; 24]
    requires dimension { IsDimension D }
    requires label { label < 2 ^ (2 ^ D) }
    ensures { AreByOrders D label result }
{
    let mut labels = [label; 24];
    for next in 1..COUNTS[D - 2] {
        let (before, swap) = STEPS[D - 2][next];
        labels[next] = exchanged::<D>(labels[before as usize], &SWAPS[swap as usize]);
    }
    labels
}

// The labels to which flips carry a label in place, in ascending order of the flips.
pub(crate) fn by_flips<const D: usize>(label: u32) -> [u32; 16]
    requires dimension { IsDimension D }
    requires label { label < 2 ^ (2 ^ D) }
    ensures { AreByFlips D label result }
{
    let mut labels = [label; 16];
    for flips in 1..1usize << D {
        let axis = flips.trailing_zeros();
        labels[flips] = exchanged::<D>(labels[flips & (flips - 1)], &FLIPS[axis as usize]);
    }
    labels
}

// The order of the axes of this number, in ascending order of the orders.
pub(crate) fn order_at<const D: usize>(number: usize) -> [u8; D]
    requires dimension { IsDimension D }
    requires number { number < length (orders D) }
    ensures { result ≡ slice_index_or (orders D) number [] }
{
    let mut axes = [0; D];
    for axis in 0..D {
        axes[axis] = ORDERS[D - 2][number][axis];
    }
    axes
}
