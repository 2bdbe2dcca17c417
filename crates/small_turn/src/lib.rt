//! Turns of small rows, and the half-space through D points, in two, three and four dimensions.
//!
//! The turn of D rows of D whole numbers is their determinant: the signed sum, over all D! orders of the columns, of
//! the products of one number of each row. Its sign tells on which side of a hyperplane a point lies. All sums are
//! taken in 64 bits, and the conditions on the entries keep each of them far from wrapping.
//!
//! For proofs above this crate: `proofs/TurnLaws` has the expansion along the last row, `proofs/TurnExpr` writes a
//! turn as an expression for the solver of `polynomials`, `proofs/Planes` has `turn_laws` (expansion and Cramer's
//! rule for each dimension) with what follows for half-spaces through D points, `proofs/SpanLaws` says when such
//! points span a hyperplane, and `proofs/MatrixRows` bounds products of rows.
#![tactic(auto)]

ghost use Rattle.std.specs.Prelude.{◌≡◌, ◌↔◌, ◌+◌, ◌-◌, ◌*◌, ◌^◌, ◌<◌, ◌≤◌, ℤ, List, pos, negsuc, ◌+ℤ◌, ◌*ℤ◌, ◌-ℤ◌, neg_ℤ, ◌∷◌, [], All, length};
ghost use Rattle.lists.specs.Orders.{without};
ghost use Rattle.iso_model.specs.Turns.{turn, dot, cofactors, minus, hyper, rows_to, HasNormal, Spans};
ghost use Rattle.polynomials.specs.Small.{IsSmall, AreSmall};
ghost use Rattle.small_turn.specs.Planes.{TurnsTo, HasNormalWhereSpan};

/// The inner product of two rows: the sum of the products, place by place. The rows have at most four numbers, those
/// of the first at most 2^40 in size, those of the second from -64 to 64.
pub fn dot<const N: usize>(xs: &[i64; N], ys: &[i64; N]) -> i64
    requires few { N ≤ 4 }
    requires left { AreSmall (2 ^ 40) xs.now }
    requires right { AreSmall 64 ys.now }
    ensures { result ≡ dot xs.now ys.now }
{
    let mut sum = 0;
    for i in 0..N {
        sum += xs[i] * ys[i];
    }
    sum
}

// The turn of the rows a b and c d.
fn turn_two(a: i64, b: i64, c: i64, d: i64) -> i64
    requires a_small { IsSmall 64 a }
    requires b_small { IsSmall 64 b }
    requires c_small { IsSmall 64 c }
    requires d_small { IsSmall 64 d }
    ensures value { result ≡ a *ℤ d -ℤ b *ℤ c }
    ensures small { IsSmall 8192 result }
{
    a * d - b * c
}

fn turn_of_two(a: &[i64; 2], b: &[i64; 2]) -> i64
    requires a_small { AreSmall 64 a.now }
    requires b_small { AreSmall 64 b.now }
    ensures { result ≡ turn (a.now ∷ b.now ∷ []) }
{
    turn_two(a[0], a[1], b[0], b[1])
}

// The turns of two rows without a column, with their signs.
fn cofactors_of_two(a: &[i64; 3], b: &[i64; 3]) -> [i64; 3]
    requires a_small { AreSmall 64 a.now }
    requires b_small { AreSmall 64 b.now }
    ensures value { result ≡ cofactors (a.now ∷ b.now ∷ []) }
    ensures small { AreSmall 8192 result }
{
    let first = turn_two(a[1], a[2], b[1], b[2]);
    let second = turn_two(a[2], a[0], b[2], b[0]);
    let third = turn_two(a[0], a[1], b[0], b[1]);
    [first, second, third]
}

fn turn_three(a: &[i64; 3], b: &[i64; 3], c: &[i64; 3]) -> i64
    requires a_small { AreSmall 64 a.now }
    requires b_small { AreSmall 64 b.now }
    requires c_small { AreSmall 64 c.now }
    ensures value { result ≡ turn (a.now ∷ b.now ∷ c.now ∷ []) }
    ensures small { IsSmall (2 ^ 21) result }
{
    dot(&cofactors_of_two(a, b), c)
}

fn minor_of_four(row: &[i64; 4], k: usize) -> [i64; 3]
    requires { k < 4 }
    ensures { result ≡ without k row.now }
{
    match k {
        0 => [row[1], row[2], row[3]],
        1 => [row[0], row[2], row[3]],
        2 => [row[0], row[1], row[3]],
        _ => [row[0], row[1], row[2]],
    }
}

// The turn of three rows without column k.
fn turn_without(a: &[i64; 4], b: &[i64; 4], c: &[i64; 4], k: usize) -> i64
    requires inside { k < 4 }
    requires a_small { AreSmall 64 a.now }
    requires b_small { AreSmall 64 b.now }
    requires c_small { AreSmall 64 c.now }
    ensures value { result ≡ turn (without k a.now ∷ without k b.now ∷ without k c.now ∷ []) }
    ensures small { IsSmall (2 ^ 21) result }
{
    turn_three(
        &minor_of_four(a, k),
        &minor_of_four(b, k),
        &minor_of_four(c, k),
    )
}

fn cofactors_of_three(a: &[i64; 4], b: &[i64; 4], c: &[i64; 4]) -> [i64; 4]
    requires a_small { AreSmall 64 a.now }
    requires b_small { AreSmall 64 b.now }
    requires c_small { AreSmall 64 c.now }
    ensures value { result ≡ cofactors (a.now ∷ b.now ∷ c.now ∷ []) }
    ensures small { AreSmall (2 ^ 21) result }
{
    let first = turn_without(a, b, c, 0);
    let second = turn_without(a, b, c, 1);
    let third = turn_without(a, b, c, 2);
    let fourth = turn_without(a, b, c, 3);
    [-first, second, -third, fourth]
}

fn turn_four(a: &[i64; 4], b: &[i64; 4], c: &[i64; 4], d: &[i64; 4]) -> i64
    requires a_small { AreSmall 64 a.now }
    requires b_small { AreSmall 64 b.now }
    requires c_small { AreSmall 64 c.now }
    requires d_small { AreSmall 64 d.now }
    ensures { result ≡ turn (a.now ∷ b.now ∷ c.now ∷ d.now ∷ []) }
{
    dot(&cofactors_of_three(a, b, c), d)
}

/// The row in numbers of 64 bits. `N` is `D`, and the numbers lie from -64 to 64.
pub fn wide<const D: usize, const N: usize>(row: &[i32; D]) -> [i64; N]
    requires alike { D ≡ N }
    requires small { AreSmall 64 row.now }
    ensures { result ≡ row.now }
{
    let mut out = [0; N];
    for i in 0..N {
        out[i] = i64::from(row[i]);
    }
    out
}

/// The determinant of D rows of D whole numbers: the signed sum, over all D! orders of the columns, of the products
/// of one number of each row. D is 2, 3 or 4, and each entry lies from -64 to 64.
pub fn turn<const D: usize>(rows: &[[i32; D]; D]) -> i64
    requires least { 2 ≤ D }
    requires greatest { D ≤ 4 }
    requires small { All (λ row. AreSmall 64 row) rows.now }
    ensures { result ≡ turn rows.now }
{
    if D == 2 {
        turn_of_two(&wide::<D, 2>(&rows[0]), &wide::<D, 2>(&rows[1]))
    } else if D == 3 {
        turn_three(
            &wide::<D, 3>(&rows[0]),
            &wide::<D, 3>(&rows[1]),
            &wide::<D, 3>(&rows[2]),
        )
    } else {
        turn_four(
            &wide::<D, 4>(&rows[0]),
            &wide::<D, 4>(&rows[1]),
            &wide::<D, 4>(&rows[2]),
            &wide::<D, 4>(&rows[3]),
        )
    }
}

/// A half-space: a point x is held where `normal . x` is at most `bound`. It is tight at the points with equality.
#[derive(Clone, Copy, Debug, PartialEq, Eq)]
pub struct HalfSpace<const D: usize> {
    pub normal: [i64; D],
    pub bound: i64,
}

fn difference<const N: usize>(a: &[i64; N], b: &[i64; N]) -> [i64; N]
    requires a_small { AreSmall 32 a.now }
    requires b_small { AreSmall 32 b.now }
    ensures value { result ≡ minus a.now b.now }
    ensures small { AreSmall 64 result }
{
    let mut out = [0; N];
    for i in 0..N {
        out[i] = a[i] - b[i];
    }
    out
}

fn cofactors_of_one(a: &[i64; 2]) -> [i64; 2]
    requires { AreSmall 64 a.now }
    ensures value { result ≡ cofactors (a.now ∷ []) }
    ensures small { AreSmall 64 result }
{
    [-a[1], a[0]]
}

// The row as one of another length that is the same.
fn as_row<const N: usize, const D: usize>(row: &[i64; N]) -> [i64; D]
    requires { N ≡ D }
    ensures { result ≡ row.now }
{
    let mut out = [0; D];
    for i in 0..D {
        out[i] = row[i];
    }
    out
}

// The half-space with this normal that is tight at the point.
fn plane_at<const N: usize, const D: usize>(normal: &[i64; N], point: &[i64; N]) -> HalfSpace<D>
    requires alike { N ≡ D }
    requires few { D ≤ 4 }
    requires coefficients { AreSmall (2 ^ 21) normal.now }
    requires small { AreSmall 32 point.now }
    ensures normal { result.normal ≡ normal.now }
    ensures bound { result.bound ≡ dot normal.now point.now }
    ensures constant { IsSmall (2 ^ 28) result.bound }
{
    HalfSpace {
        normal: as_row(normal),
        bound: dot(normal, point),
    }
}

fn plane_of_two<const D: usize>(p: &[i64; 2], q: &[i64; 2]) -> HalfSpace<D>
    requires alike { D ≡ 2 }
    requires p_small { AreSmall 32 p.now }
    requires q_small { AreSmall 32 q.now }
    ensures normal { result.normal ≡ (hyper (p.now ∷ q.now ∷ [])).normal }
    ensures bound { result.bound ≡ (hyper (p.now ∷ q.now ∷ [])).bound }
    ensures turns { TurnsTo D (p.now ∷ q.now ∷ []) result.normal result.bound }
    ensures spans { HasNormalWhereSpan (p.now ∷ q.now ∷ []) result.normal result.bound }
    ensures coefficients { AreSmall (2 ^ 21) result.normal }
    ensures constant { IsSmall (2 ^ 28) result.bound }
{
    let normal = cofactors_of_one(&difference(q, p));
    plane_at(&normal, p)
}

fn plane_of_three<const D: usize>(p: &[i64; 3], q: &[i64; 3], r: &[i64; 3]) -> HalfSpace<D>
    requires alike { D ≡ 3 }
    requires p_small { AreSmall 32 p.now }
    requires q_small { AreSmall 32 q.now }
    requires r_small { AreSmall 32 r.now }
    ensures normal { result.normal ≡ (hyper (p.now ∷ q.now ∷ r.now ∷ [])).normal }
    ensures bound { result.bound ≡ (hyper (p.now ∷ q.now ∷ r.now ∷ [])).bound }
    ensures turns { TurnsTo D (p.now ∷ q.now ∷ r.now ∷ []) result.normal result.bound }
    ensures spans { HasNormalWhereSpan (p.now ∷ q.now ∷ r.now ∷ []) result.normal result.bound }
    ensures coefficients { AreSmall (2 ^ 21) result.normal }
    ensures constant { IsSmall (2 ^ 28) result.bound }
{
    let normal = cofactors_of_two(&difference(q, p), &difference(r, p));
    plane_at(&normal, p)
}

fn plane_of_four<const D: usize>(
    p: &[i64; 4],
    q: &[i64; 4],
    r: &[i64; 4],
    s: &[i64; 4],
) -> HalfSpace<D>
    requires alike { D ≡ 4 }
    requires p_small { AreSmall 32 p.now }
    requires q_small { AreSmall 32 q.now }
    requires r_small { AreSmall 32 r.now }
    requires s_small { AreSmall 32 s.now }
    ensures normal { result.normal ≡ (hyper (p.now ∷ q.now ∷ r.now ∷ s.now ∷ [])).normal }
    ensures bound { result.bound ≡ (hyper (p.now ∷ q.now ∷ r.now ∷ s.now ∷ [])).bound }
    ensures turns { TurnsTo D (p.now ∷ q.now ∷ r.now ∷ s.now ∷ []) result.normal result.bound }
    ensures spans { HasNormalWhereSpan (p.now ∷ q.now ∷ r.now ∷ s.now ∷ []) result.normal result.bound }
    ensures coefficients { AreSmall (2 ^ 21) result.normal }
    ensures constant { IsSmall (2 ^ 28) result.bound }
{
    let normal = cofactors_of_three(&difference(q, p), &difference(r, p), &difference(s, p));
    plane_at(&normal, p)
}

/// The half-space through D points. For each point x, `normal . x - bound` is the turn of the rows from the first
/// point to each other one and, last, to x. So it is tight at the points themselves, and at all points of their
/// hyperplane. The normal is zero exactly where the points do not span a hyperplane. D is 2, 3 or 4, and each
/// coordinate lies from -32 to 32; the coefficients are then at most 2^21 in size, and the bound at most 2^28.
pub fn hyper<const D: usize>(points: &[[i32; D]; D]) -> HalfSpace<D>
    requires least { 2 ≤ D }
    requires greatest { D ≤ 4 }
    requires small { All (λ p. AreSmall 32 p) points.now }
    ensures normal { result.normal ≡ (hyper points.now).normal }
    ensures bound { result.bound ≡ (hyper points.now).bound }
    ensures turns { TurnsTo D points.now result.normal result.bound }
    ensures spans { HasNormalWhereSpan points.now result.normal result.bound }
    ensures coefficients { AreSmall (2 ^ 21) result.normal }
    ensures constant { IsSmall (2 ^ 28) result.bound }
{
    if D == 2 {
        plane_of_two(&wide(&points[0]), &wide(&points[1]))
    } else if D == 3 {
        plane_of_three(&wide(&points[0]), &wide(&points[1]), &wide(&points[2]))
    } else {
        plane_of_four(
            &wide(&points[0]),
            &wide(&points[1]),
            &wide(&points[2]),
            &wide(&points[3]),
        )
    }
}
