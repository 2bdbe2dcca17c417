//! The triangles of the cut, simplex after simplex.

ghost use Rattle.std.specs.Prelude.{◌≡◌, ℕ, ◌^◌, ◌<◌, ◌++◌, flat_map, length, slice_index, All, IfOk, OnOk};
ghost use Rattle.iso_model.specs.Tables.{IsTable};
ghost use Rattle.iso_model.specs.OrderedAcceptance.{IsOfTetrahedron};
ghost use Rattle.iso_model.specs.Placed.{placed_tuple};
ghost use Rattle.cut_laws.specs.Cuts.{number_in as place_in, edge_of as edge_in};
ghost use Rattle.cut_laws.specs.CutSteps.{IsSimplex, AreLinks, HasEmptyEnds};
ghost use Rattle.mesh_slice.specs.Slices.{late_by, Name, AreSimplices, placed_by, triangles_by};

use crate::corners::{edge_of, in_order, is_parted, label_of};
use crate::late::is_cut;
use crate::links::number_in;
use cut_laws::Link;
use iso_base::Memory;
use mesh_laws::order_parity;
use std::alloc::Global;
use table_file::Table;

/// The triangles of all simplices.
pub fn all_triangles(
    alloc: Global,
    simplices: &[[u32; 4]],
    late: &[bool],
    links: &[Link],
    cut: &Table<3>,
) -> Result<Vec<[u32; 3]>, Memory>
    requires simplices { AreSimplices (length late.now) simplices.now }
    requires links { AreLinks (late_by late.now) links.now }
    requires few { length links.now < 2 ^ 32 }
    requires cells { IsOfTetrahedron cut.now }
    requires table { IsTable cut.now }
    requires ends { HasEmptyEnds cut.now }
    ensures { IfOk result (λ found. found.items ≡ flat_map (triangles_by late.now links.now cut.now) simplices.now) }
{
    let mut triangles = Vec::new(alloc);
    for simplex in simplices {
        add_triangles(&mut triangles, simplex, late, links, cut)?;
    }
    Ok(triangles)
}

// Adds the triangles of a simplex.
fn add_triangles(
    found: &mut Vec<[u32; 3]>,
    simplex: &[u32; 4],
    late: &[bool],
    links: &[Link],
    cut: &Table<3>,
) -> Result<(), Memory>
    requires simplex { IsSimplex (length late.now) simplex.now }
    requires links { AreLinks (late_by late.now) links.now }
    requires few { length links.now < 2 ^ 32 }
    requires cells { IsOfTetrahedron cut.now }
    requires table { IsTable cut.now }
    requires ends { HasEmptyEnds cut.now }
    ensures { OnOk result (found.new.items ≡ found.old.items ++ triangles_by late.now links.now cut.now simplex.now) }
{
    if is_cut(simplex, late) {
        let corners = in_order(simplex);
        let tuples = cut.tuples(label_of(&corners, late));
        let places = link_numbers(&corners, late, links);
        return add_placed(found, tuples, &places, order_parity(simplex) == 1);
    }
    Ok(())
}

// The number of the link on each local edge of corners, or that of all links where there is none.
fn link_numbers(corners: &[u32; 4], late: &[bool], links: &[Link]) -> [u32; 6]
    requires corners { Name (length late.now) corners.now }
    requires links { AreLinks (late_by late.now) links.now }
    requires few { length links.now < 2 ^ 32 }
    ensures { (e : ℕ) → e < 6 → slice_index result e ≡ place_in links.now (edge_in corners.now e) }
{
    let mut places = [0; 6];
    for edge in 0..6 {
        places[edge as usize] = number_if_parted(links, edge_of(corners, edge), late);
    }
    places
}

// The number of a link, or that of all links where no end is late or both are.
fn number_if_parted(links: &[Link], link: Link, late: &[bool]) -> u32
    requires low { link.low < length late.now }
    requires high { link.high < length late.now }
    requires links { AreLinks (late_by late.now) links.now }
    requires few { length links.now < 2 ^ 32 }
    ensures { result ≡ place_in links.now link }
{
    if is_parted(link, late) {
        number_in(links, link)
    } else {
        links.len() as u32
    }
}

// Adds tuples of local edges, each edge replaced by its place, and the last two exchanged where `odd` holds.
fn add_placed(
    triangles: &mut Vec<[u32; 3]>,
    tuples: &[[u8; 3]],
    places: &[u32; 6],
    odd: bool,
) -> Result<(), Memory>
    requires { All (All (λ e. e < 6)) tuples.now }
    ensures { OnOk result (triangles.new.items ≡ triangles.old.items ++ placed_by odd places.now tuples.now) }
{
    for tuple in tuples {
        if triangles.push(placed(tuple, places, odd)).is_err() {
            return Err(Memory);
        }
    }
    Ok(())
}

// A tuple of local edges, each replaced by its place, and the last two exchanged where `odd` holds.
fn placed(tuple: &[u8; 3], places: &[u32; 6], odd: bool) -> [u32; 3]
    requires { All (λ e. e < 6) tuple.now }
    ensures { result ≡ placed_tuple odd (λ e. slice_index places.now e) tuple.now }
{
    let first = places[tuple[0] as usize];
    let second = places[tuple[1] as usize];
    let third = places[tuple[2] as usize];
    if odd {
        [first, third, second]
    } else {
        [first, second, third]
    }
}
