//! Faces of simplices: how many simplices have a face, and with which signs.
//!
//! The face of a simplex without one of its places has the numbers at the other places in ascending order. Its sign is
//! that of the place, -1 at odd places counted from 0, times the parity of that sorting. The sum of the signs at a face
//! is 0 where the simplices round it are turned alike.

ghost use Rattle.std.specs.Prelude.{◌≡◌, ◌+◌, ◌≤◌, ◌<◌, ◌^◌, ◌%◌, length, count_by, nat_lt, true, false, unsigned_abs};
ghost use Rattle.std.specs.List.Sorted.{IsStrictlyIncreasing};
ghost use Rattle.lists.specs.Orders.{has, is_distinct, inversions};
ghost use Rattle.iso_model.specs.Faces.{has_face, sign_of_face, face_count, face_sum};

fn has(numbers: &[u32], number: u32) -> bool
    ensures { result ≡ has numbers.now number }
{
    numbers.iter().any(|other| number == *other)
}

/// How many numbers are below this one.
pub fn count_below(numbers: &[u32], number: u32) -> usize
    ensures { result ≡ count_by (λ other. nat_lt other number) numbers.now }
{
    numbers.iter().filter(|other| **other < number).count()
}

/// Whether no number stands twice.
pub fn is_distinct(numbers: &[u32]) -> bool
    ensures { result ≡ is_distinct numbers.now }
{
    for (i, number) in numbers.iter().enumerate() {
        if has(&numbers[i + 1..], *number) {
            return false;
        }
    }
    true
}

/// 1 where sorting the numbers takes an odd number of exchanges, and else 0.
pub fn order_parity(numbers: &[u32]) -> usize
    ensures { result ≡ inversions numbers.now % 2 }
{
    let mut parity = 0;
    for (i, number) in numbers.iter().enumerate() {
        parity = (parity + count_below(&numbers[i + 1..], *number) % 2) % 2;
    }
    parity
}

fn has_face<const D: usize>(simplex: &[u32; D], face: &[u32]) -> bool
    requires length { length face.now + 1 ≡ D }
    requires ascending { IsStrictlyIncreasing face.now }
    ensures { result ≡ has_face face.now simplex.now }
{
    for number in face {
        if !has(simplex, *number) {
            return false;
        }
    }
    is_distinct(simplex)
}

// The number that the face leaves out.
fn free_number<const D: usize>(simplex: &[u32; D], face: &[u32]) -> u32
    requires { has_face face.now simplex.now ≡ true }
    ensures within { has simplex.now result ≡ true }
    ensures free { has face.now result ≡ false }
{
    for number in simplex {
        if !has(face, *number) {
            return *number;
        }
    }
    unreachable!()
}

// The sign with which the simplex has the face, and 0 where it does not have it.
fn sign_of_face<const D: usize>(simplex: &[u32; D], face: &[u32]) -> i64
    requires length { length face.now + 1 ≡ D }
    requires ascending { IsStrictlyIncreasing face.now }
    ensures value { result ≡ sign_of_face face.now simplex.now }
    ensures size { unsigned_abs result ≤ 1 }
{
    if !has_face(simplex, face) {
        return 0;
    }
    let free = free_number(simplex, face);
    let rank = count_below(simplex, free);
    let order = order_parity(simplex);
    if (order + rank % 2) % 2 == 1 { -1 } else { 1 }
}

/// The number of simplices that have the face.
///
/// The face has one number less than a simplex, in ascending order. A simplex with a repeated number has no face.
pub fn face_count<const D: usize>(simplices: &[[u32; D]], face: &[u32]) -> u64
    requires length { length face.now + 1 ≡ D }
    requires ascending { IsStrictlyIncreasing face.now }
    requires few { length simplices.now < 2 ^ 60 }
    ensures { result ≡ face_count simplices.now face.now }
{
    let mut count = 0;
    for simplex in simplices {
        if has_face(simplex, face) {
            count += 1;
        }
    }
    count
}

/// The sum of the signs, 1 or -1, with which the simplices have the face.
///
/// The face has one number less than a simplex, in ascending order. A simplex with a repeated number has no face.
pub fn face_sum<const D: usize>(simplices: &[[u32; D]], face: &[u32]) -> i64
    requires length { length face.now + 1 ≡ D }
    requires ascending { IsStrictlyIncreasing face.now }
    requires few { length simplices.now < 2 ^ 60 }
    ensures { result ≡ face_sum simplices.now face.now }
{
    let mut sum = 0;
    for simplex in simplices {
        sum += sign_of_face(simplex, face);
    }
    sum
}
