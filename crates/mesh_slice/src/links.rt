//! The links of a mesh: the edges of its simplices of which one end is late and the other is not, in ascending order.

ghost use Rattle.std.specs.Prelude.{◌≡◌, ◌^◌, ◌<◌, ◌++◌, flat_map, length, IfOk, OnOk};
ghost use Rattle.lists.specs.Members.{AscendsBy};
ghost use Rattle.cut_laws.specs.Cuts.{number_in as place_in};
ghost use Rattle.cut_laws.specs.CutSteps.{IsSimplex, Below, parted_edges, links_in};
ghost use Rattle.mesh_slice.specs.Slices.{late_by, Name, AreSimplices, links_by, if_parted};

use crate::corners::{edge_of, in_order, is_parted};
use crate::late::is_cut;
use cut_laws::Link;
use iso_base::Memory;
use std::alloc::Global;

/// The links, each once, in ascending order.
pub fn all_links(alloc: Global, simplices: &[[u32; 4]], late: &[bool]) -> Result<Vec<Link>, Memory>
    requires few { length simplices.now < 2 ^ 24 }
    requires simplices { AreSimplices (length late.now) simplices.now }
    ensures links { IfOk result (λ links. links.items ≡ links_by late.now simplices.now) }
    ensures few { IfOk result (λ links. length links.items < 2 ^ 32) }
{
    let mut links = found_links(alloc, simplices, late)?;
    links.sort_unstable();
    links.dedup();
    Ok(links)
}

// The links of each simplex, simplex after simplex.
fn found_links(alloc: Global, simplices: &[[u32; 4]], late: &[bool]) -> Result<Vec<Link>, Memory>
    requires { AreSimplices (length late.now) simplices.now }
    ensures { IfOk result (λ links. links.items ≡ flat_map (links_in (late_by late.now)) simplices.now) }
{
    let mut links = Vec::new(alloc);
    for simplex in simplices {
        add_links(&mut links, simplex, late)?;
    }
    Ok(links)
}

// Adds the links of a simplex.
fn add_links(links: &mut Vec<Link>, simplex: &[u32; 4], late: &[bool]) -> Result<(), Memory>
    requires { IsSimplex (length late.now) simplex.now }
    ensures { OnOk result (links.new.items ≡ links.old.items ++ links_in (late_by late.now) simplex.now) }
{
    if is_cut(simplex, late) {
        return add_parted(links, &in_order(simplex), late);
    }
    Ok(())
}

// Adds the edges of corners of which one end is late and the other is not.
fn add_parted(links: &mut Vec<Link>, corners: &[u32; 4], late: &[bool]) -> Result<(), Memory>
    requires { Name (length late.now) corners.now }
    ensures { OnOk result (links.new.items ≡ links.old.items ++ parted_edges (late_by late.now) corners.now) }
{
    for edge in 0..6 {
        add_if_parted(links, edge_of(corners, edge), late)?;
    }
    Ok(())
}

// Adds a link, where one end is late and the other is not.
fn add_if_parted(links: &mut Vec<Link>, link: Link, late: &[bool]) -> Result<(), Memory>
    requires low { link.low < length late.now }
    requires high { link.high < length late.now }
    ensures { OnOk result (links.new.items ≡ links.old.items ++ if_parted late.now link) }
{
    if is_parted(link, late) && links.push(link).is_err() {
        return Err(Memory);
    }
    Ok(())
}

/// The place of a link among links in ascending order, or their number where it is none of them.
pub fn number_in(links: &[Link], link: Link) -> u32
    requires ascend { AscendsBy Below links.now }
    requires few { length links.now < 2 ^ 32 }
    ensures { result ≡ place_in links.now link }
{
    match links.binary_search(&link) {
        Ok(place) => place as u32,
        Err(_) => links.len() as u32,
    }
}
