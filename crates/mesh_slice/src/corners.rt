//! The vertices of a simplex in ascending order, which are its corners, and its edges there.

ghost use Rattle.std.specs.Prelude.{◌≡◌, ◌+◌, ◌^◌, ◌<◌, length, if◌then◌else◌};
ghost use Rattle.lists.specs.Orders.{sorted};
ghost use Rattle.cut_laws.specs.Cuts.{label_of as label_in, edge_of as edge_in};
ghost use Rattle.cut_laws.specs.CutSteps.{is_parted as parts};
ghost use Rattle.mesh_slice.specs.Slices.{late_by, Name};

use cell_lattice::{Cell, SimplexCell};
use cut_laws::Link;

/// The numbers of a simplex in ascending order.
pub fn in_order(simplex: &[u32; 4]) -> [u32; 4]
    ensures { result ≡ sorted simplex.now }
{
    let mut corners = *simplex;
    corners.sort_unstable();
    corners
}

/// The label of corners: bit k is set where corner k is late.
pub fn label_of(corners: &[u32; 4], late: &[bool]) -> u32
    requires { Name (length late.now) corners.now }
    ensures label { result ≡ label_in (late_by late.now) corners.now }
    ensures few { result < 16 }
{
    let mut label = 0;
    for corner in 0..4 {
        label = with_corner(label, corner, late[corners[corner as usize] as usize]);
    }
    label
}

// A label of the corners below this one, with this one.
fn with_corner(label: u32, corner: u8, late: bool) -> u32
    requires corner { corner < 4 }
    requires below { label < 2 ^ corner }
    ensures { result ≡ label + (if late then 2 ^ corner else 0) }
{
    if late { label + (1 << corner) } else { label }
}

/// A local edge of corners.
pub fn edge_of(corners: &[u32; 4], edge: u8) -> Link
    requires { edge < 6 }
    ensures { result ≡ edge_in corners.now edge }
{
    let (first, second) = SimplexCell::<3>::edge_ends(edge);
    Link {
        low: corners[first as usize],
        high: corners[second as usize],
    }
}

/// Whether one end is late and the other is not.
pub fn is_parted(link: Link, late: &[bool]) -> bool
    requires low { link.low < length late.now }
    requires high { link.high < length late.now }
    ensures { result ≡ parts (late_by late.now) link }
{
    late[link.low as usize] != late[link.high as usize]
}
