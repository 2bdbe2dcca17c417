//! The finding on a mesh.

ghost use Rattle.std.specs.Prelude.{◌^◌, ◌<◌, ◌≤◌, ℕ, length, IfOk};
ghost use Rattle.mesh_audit.specs.Findings.{HasFinding, NoneRepeats};
ghost use Rattle.mesh_audit.specs.SignedKeys.{IsLeastSide};
ghost use Rattle.mesh_audit.specs.OffMeshes.{AreIndices};

use crate::findings::{Finding, Off};
use crate::links::wrong_link;
use crate::repeats::least_repeat;
use crate::sides::{Sides, judge_sides};
use iso_base::Memory;
use mesh_laws::{face_count, face_key, face_sum};
use std::alloc::Global;

/// No memory holds an array of so many numbers.
const ARRAY_LIMIT: usize = 1 << 61;

/// What is found in a mesh.
///
/// The numbers of the simplices are those of vertices. Where D is more than 256, a face that is not glued may have a
/// place that is no byte: then no finding can name it, and the answer is that of refused memory.
///
/// Puts the faces with their signs in order by way of groups of near numbers, and in three dimensions the triangles at
/// each vertex. Takes time in proportion to the number of simplices where a number is in few of them, and to `n log n`
/// for `n` simplices in any case, and little more memory than D numbers for each face of a simplex.
pub fn audit<const D: usize>(alloc: Global, off: &Off<D>) -> Result<Finding, Memory>
    requires indices { AreIndices off.now }
    requires few { length off.now.simplices < 2 ^ 30 }
    ensures { IfOk result (HasFinding D off.now.vertices off.now.simplices) }
{
    if D >= ARRAY_LIMIT {
        return Err(Memory);
    }
    let simplices = off.simplices.as_slice();
    if let Some(number) = least_repeat(simplices) {
        return Ok(Finding::Repeat {
            simplex: number as u32,
        });
    }
    let boundary = match judge_sides(alloc, simplices, off.vertices)? {
        Sides::Glued { boundary } => boundary,
        Sides::Wrong { number, place } => {
            let Ok(place) = u8::try_from(place) else {
                return Err(Memory);
            };
            return Ok(face_finding(simplices, number, place));
        }
    };
    if D == 3 {
        if let Some(vertex) = wrong_link(alloc, simplices, off.vertices)? {
            return Ok(Finding::Link { vertex });
        }
    }
    Ok(Finding::Clean { boundary })
}

// The finding at the least simplex with a face that is not glued, and its least place.
fn face_finding<const D: usize>(simplices: &[[u32; D]], number: usize, place: u8) -> Finding
    requires few { length simplices.now < 2 ^ 30 }
    requires distinct { NoneRepeats simplices.now }
    requires side { IsLeastSide simplices.now (number, place) }
    requires place { place < D }
    ensures { (d vertices : ℕ) → HasFinding d vertices simplices.now result }
{
    let key = face_key(&simplices[number], place as usize);
    let numbers = &key[..];
    let face = &numbers[1..];
    Finding::Face {
        simplex: number as u32,
        place,
        count: face_count(simplices, face),
        sum: face_sum(simplices, face),
    }
}
