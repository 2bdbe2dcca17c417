//! Where links are cut.

ghost use Rattle.std.specs.Prelude.{◌≡◌, ◌^◌, ◌<◌, ◌≤◌, true, pos, ◌*ℤ◌, map, length, All, IfOk, unsigned_abs};
ghost use Rattle.std.specs.Int.{int_div_euclid};
ghost use Rattle.iso_model.specs.Bipolar.{differ};
ghost use Rattle.cut_laws.specs.Cuts.{IsModerate, is_late_position};
ghost use Rattle.cut_laws.specs.Cuts.{position_on as position_of, position_between as point_between};
ghost use Rattle.mesh_slice.specs.Slices.{IsCrossed};

use cut_laws::Link;
use iso_base::Memory;
use std::alloc::Global;

/// The position of the vertex on each link, in the order of the links.
pub fn all_positions(
    alloc: Global,
    vertices: &[[i64; 4]],
    links: &[Link],
    time: i64,
) -> Result<Vec<[i64; 3]>, Memory>
    requires moderate { All (All IsModerate) vertices.now }
    requires time { IsModerate time }
    requires crossed { All (IsCrossed vertices.now time) links.now }
    ensures { IfOk result (λ positions. positions.items ≡ map (position_of vertices.now time) links.now) }
{
    let Ok(mut positions) = Vec::with_capacity(alloc, links.len()) else {
        return Err(Memory);
    };
    for link in links {
        if positions.push(position_on(vertices, *link, time)).is_err() {
            return Err(Memory);
        }
    }
    Ok(positions)
}

// The position of the vertex on a link.
fn position_on(vertices: &[[i64; 4]], link: Link, time: i64) -> [i64; 3]
    requires moderate { All (All IsModerate) vertices.now }
    requires time { IsModerate time }
    requires crossed { IsCrossed vertices.now time link }
    ensures { result ≡ position_of vertices.now time link }
{
    let low = &vertices[link.low as usize];
    let high = &vertices[link.high as usize];
    position_between(low, high, time)
}

// Where the way from one position to another is cut, one of which is late at the time and the other is not.
fn position_between(low: &[i64; 4], high: &[i64; 4], time: i64) -> [i64; 3]
    requires low { All IsModerate low.now }
    requires high { All IsModerate high.now }
    requires time { IsModerate time }
    requires crossed { differ (is_late_position time low.now) (is_late_position time high.now) ≡ true }
    ensures { result ≡ point_between low.now high.now time }
{
    let part = time.abs_diff(low[3]);
    let way = high[3].abs_diff(low[3]);
    let mut position = [0; 3];
    for axis in 0..3 {
        position[axis] = low[axis] + share(high[axis] - low[axis], part, way);
    }
    position
}

// The run times the part of the way, rounded towards minus infinity.
fn share(run: i64, part: u64, way: u64) -> i64
    requires run { unsigned_abs run ≤ 2 ^ 53 }
    requires some { 0 < way }
    requires between { part ≤ way }
    requires few { way ≤ 2 ^ 53 }
    ensures share { result ≡ int_div_euclid (run *ℤ pos part) (pos way) }
    ensures small { unsigned_abs result ≤ 2 ^ 53 }
{
    (i128::from(run) * i128::from(part)).div_euclid(i128::from(way)) as i64
}
