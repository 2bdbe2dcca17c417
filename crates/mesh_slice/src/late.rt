//! Which vertices of a mesh are late, and which simplices have late and other vertices.

ghost use Rattle.std.specs.Prelude.{◌≡◌, map, length, IfOk};
ghost use Rattle.cut_laws.specs.Cuts.{is_late_position};
ghost use Rattle.cut_laws.specs.CutSteps.{IsSimplex, is_cut as is_cut_by};
ghost use Rattle.mesh_slice.specs.Slices.{late_by};

use iso_base::Memory;
use std::alloc::Global;

/// For each vertex, whether it is late: its last coordinate is at least the time.
pub fn late_flags(alloc: Global, vertices: &[[i64; 4]], time: i64) -> Result<Vec<bool>, Memory>
    ensures { IfOk result (λ late. late.items ≡ map (is_late_position time) vertices.now) }
{
    let Ok(mut late) = Vec::with_capacity(alloc, vertices.len()) else {
        return Err(Memory);
    };
    for position in vertices {
        if late.push(is_late(position, time)).is_err() {
            return Err(Memory);
        }
    }
    Ok(late)
}

// Whether a position is late: its last coordinate is at least the time.
fn is_late(position: &[i64; 4], time: i64) -> bool
    ensures { result ≡ is_late_position time position.now }
{
    position[3] >= time
}

/// Whether some vertices of a simplex are late and some are not.
pub fn is_cut(simplex: &[u32; 4], late: &[bool]) -> bool
    requires { IsSimplex (length late.now) simplex.now }
    ensures { result ≡ is_cut_by (late_by late.now) simplex.now }
{
    let first = late[simplex[0] as usize];
    simplex.iter().any(|number| late[*number as usize] != first)
}
