//! Points of a set that lie in no small flat, by exchange of rows.

ghost use Rattle.std.specs.Prelude.{◌<◌, ◌≤◌, All, IfSome, length};
ghost use Rattle.polynomials.specs.Small.{AreSmall};

use small_turn::turn;

// The vector from a point to another one.
fn towards<const D: usize>(from: &[i32; D], to: &[i32; D]) -> [i32; D]
    requires from_small { AreSmall 32 from.now }
    requires to_small { AreSmall 32 to.now }
    ensures { AreSmall 64 result }
{
    let mut row = [0; D];
    for i in 0..D {
        row[i] = to[i] - from[i];
    }
    row
}

// The unit vectors, in order.
fn unit_rows<const D: usize>() -> [[i32; D]; D]
    ensures { All (λ row. AreSmall 64 row) result }
{
    let mut rows = [[0; D]; D];
    for i in 0..D {
        let mut row = [0; D];
        row[i] = 1;
        rows[i] = row;
    }
    rows
}

// The first place that still has its unit vector and at which the row can stand in place of it, so that the rows span
// the space as before.
fn free_place<const D: usize>(
    rows: &[[i32; D]; D],
    row: &[i32; D],
    chosen: &[usize; D],
    first: usize,
) -> Option<usize>
    requires least { 2 ≤ D }
    requires greatest { D ≤ 4 }
    requires small { All (λ r. AreSmall 64 r) rows.now }
    requires row_small { AreSmall 64 row.now }
    ensures { IfSome result (λ k. k < D) }
{
    for k in 0..D {
        if chosen[k] == first {
            let mut exchanged = *rows;
            exchanged[k] = *row;
            if turn(&exchanged) != 0 {
                return Some(k);
            }
        }
    }
    None
}

/// As many points of a set as there are that lie, with its first point, in no flat of a lower dimension than their
/// number, up to D. The other places have the first point.
///
/// Each row is the vector to a point that was chosen, or still a unit vector. Nothing rests on the choice but the time
/// that is taken: whoever uses it tests it.
pub(crate) fn spread<const D: usize>(points: &[[i32; D]], first: usize, set: u64) -> [usize; D]
    requires least { 2 ≤ D }
    requires greatest { D ≤ 4 }
    requires number { length points.now ≤ 48 }
    requires small { All (λ point. AreSmall 32 point) points.now }
    requires inside { first < length points.now }
    ensures { All (λ i. i < length points.now) result }
{
    let mut chosen = [first; D];
    let mut rows = unit_rows();
    for i in 0..points.len() {
        if (set >> i) & 1 == 1 {
            let row = towards(&points[first], &points[i]);
            if let Some(k) = free_place(&rows, &row, &chosen, first) {
                rows[k] = row;
                chosen[k] = i;
            }
        }
    }
    chosen
}
