//! The least label to which a move carries a label.

ghost use Rattle.std.specs.Prelude.{◌^◌, ◌<◌};
ghost use Rattle.iso_model.specs.Moves.{IsLeastLabel};
ghost use Rattle.cube_moves.specs.LeastFlips.{IsLeastFlip};
ghost use Rattle.iso_model.specs.Dimensions.{IsDimension};

use crate::moves::Move;
use crate::tables::COUNTS;
use crate::words::{by_flips, by_orders, order_at};

// The least label to which flips carry a label in place, and the first flips that do so.
fn least_flips<const D: usize>(label: u32) -> (u32, u8)
    requires dimension { IsDimension D }
    requires label { label < 2 ^ (2 ^ D) }
    ensures { IsLeastFlip D label result.0 result.1 }
{
    let labels = by_flips::<D>(label);
    let mut least = label;
    let mut first = 0;
    for flips in 1..1 << D {
        if labels[flips] < least {
            least = labels[flips];
            first = flips as u8;
        }
    }
    (least, first)
}

/// The least label to which any move carries a label, and the first move that does so, in ascending order of their axes,
/// compared place by place, and then of their flips. Bit k of a label is set where corner k is positive: a move carries
/// it to the one whose bit `move_corner(k)` is set exactly where bit k of the label is. D is 2, 3 or 4, and the label is
/// below 2^(2^D).
pub fn least_label<const D: usize>(label: u32) -> (u32, Move<D>)
    requires dimension { IsDimension D }
    requires label { label < 2 ^ (2 ^ D) }
    ensures { IsLeastLabel D label result.0 (record { axes = result.1.axes; flips = result.1.flips }) }
{
    let turned = by_orders::<D>(label);
    let (mut least, mut flips) = least_flips::<D>(turned[0]);
    let mut order = 0;
    for next in 1..COUNTS[D - 2] {
        let (other, by) = least_flips::<D>(turned[next]);
        if other < least {
            least = other;
            flips = by;
            order = next;
        }
    }
    (
        least,
        Move {
            axes: order_at(order),
            flips,
        },
    )
}
