//! The values of keys: kinds, dimensions, sizes, seeds, file names and isovalues.

ghost use Rattle.std.specs.Prelude.{◌≡◌, ℤ, [], MatchOption, drop, FitsSigned, if◌then◌else◌};
ghost use Rattle.std.specs.Int.{w64};
ghost use Rattle.std.specs.Bool.{OnTrue, OnFalse};
ghost use Rattle.std.specs.Str.{all_ascii_digits};
ghost use Rattle.std.specs.Str.Parse.{starts_with_minus};
ghost use Rattle.iso_model.specs.Cells.{HasDimension};
ghost use Rattle.iso_commands.specs.Commands.{is_number, IsNumber, size_limit};
ghost use Rattle.iso_words.specs.Given.{are_digits_alone, IsKind, IsDimension, IsSize, IsSeed, IsFile, IsIsovalue};
ghost use Rattle.iso_words.specs.Given.{Fit, HasGiven, widest, IsKindBeside, IsDimensionBeside, IsSizeBeside};
ghost use Rattle.iso_words.specs.Given.{InOrder, IsFirstBeside, IsLastBeside};
ghost use Rattle.iso_words.specs.Keys.{Finds};

use iso_model::Kind;

// The greatest size of an isovalue.
const ISO_LIMIT: i64 = 1 << 40;

// How many isovalues a range has at most.
const MOST_ISOVALUES: u64 = 65_536;

// A kind that goes with the dimension and the size, as far as they were given.
pub(crate) fn kind_beside(dim: Option<u8>, size: Option<u64>, value: &str) -> Option<Kind>
    ensures { Finds (IsKindBeside dim size value.now) result }
{
    let Some(kind) = kind_named(value) else {
        return None;
    };
    if fit(Some(kind), dim, size) {
        Some(kind)
    } else {
        None
    }
}

// A dimension that goes with the kind and the size, as far as they were given.
pub(crate) fn dimension_beside(kind: Option<Kind>, size: Option<u64>, value: &str) -> Option<u8>
    ensures { Finds (IsDimensionBeside kind size value.now) result }
{
    let Some(dim) = dimension(value) else {
        return None;
    };
    if fit(kind, Some(dim), size) {
        Some(dim)
    } else {
        None
    }
}

// A size that goes with the kind and the dimension, as far as they were given.
pub(crate) fn size_beside(kind: Option<Kind>, dim: Option<u8>, value: &str) -> Option<u64>
    ensures { Finds (IsSizeBeside kind dim value.now) result }
{
    let Some(size) = plain_size(value) else {
        return None;
    };
    if fit(kind, dim, Some(size)) {
        Some(size)
    } else {
        None
    }
}

// Whether a kind, a dimension and a size go together, as far as they were given.
fn fit(kind: Option<Kind>, dim: Option<u8>, size: Option<u64>) -> bool
    ensures yes { OnTrue result (Fit kind dim size) }
    ensures no { OnFalse result (¬ Fit kind dim size) }
{
    match size {
        Some(size) => has_given(kind, dim) && size <= most_size(widest(kind, dim)),
        None => has_given(kind, dim),
    }
}

// Whether the kind has the dimension, where both were given.
fn has_given(kind: Option<Kind>, dim: Option<u8>) -> bool
    ensures yes { OnTrue result (HasGiven kind dim) }
    ensures no { OnFalse result (¬ HasGiven kind dim) }
{
    match (kind, dim) {
        (Some(kind), Some(dim)) => has_dimension(kind, dim),
        _ => true,
    }
}

// The dimension of the grids with the greatest sizes, among those that go with a kind and a dimension, as far as they
// were given.
fn widest(kind: Option<Kind>, dim: Option<u8>) -> u8
    ensures { result ≡ widest kind dim }
{
    match (kind, dim) {
        (_, Some(dim)) => dim,
        (Some(Kind::Pyramid), None) => 3,
        (_, None) => 2,
    }
}

// The greatest size of a grid of this dimension.
fn most_size(dim: u8) -> u64
    ensures { result ≡ size_limit dim }
{
    match dim {
        2 => 256,
        3 => 64,
        _ => 16,
    }
}

// The kind that a text names.
fn kind_named(value: &str) -> Option<Kind>
    ensures { Finds (IsKind value.now) result }
{
    if value == "cube" {
        Some(Kind::Cube)
    } else if value == "simplex" {
        Some(Kind::Simplex)
    } else if value == "pyramid" {
        Some(Kind::Pyramid)
    } else {
        None
    }
}

// A dimension within its limits.
fn dimension(value: &str) -> Option<u8>
    ensures { Finds (IsDimension value.now) result }
{
    let Some(n) = number(value) else {
        return None;
    };
    if (2..=4).contains(&n) {
        Some(n as u8)
    } else {
        None
    }
}

// Whether the kind has the dimension: cubes and simplices have 2, 3 and 4, pyramids 3.
fn has_dimension(kind: Kind, dim: u8) -> bool
    ensures has { OnTrue result (HasDimension kind dim) }
    ensures lacks { OnFalse result (¬ HasDimension kind dim) }
{
    match kind {
        Kind::Cube | Kind::Simplex => (2..=4).contains(&dim),
        Kind::Pyramid => dim == 3,
    }
}

// A size within the limits of two dimensions, the widest ones.
fn plain_size(value: &str) -> Option<u64>
    ensures { Finds (IsSize value.now) result }
{
    let Some(n) = number(value) else {
        return None;
    };
    if (1..=256).contains(&n) {
        Some(n as u64)
    } else {
        None
    }
}

// A seed, of 32 bits.
pub(crate) fn seed(value: &str) -> Option<u32>
    ensures { Finds (IsSeed value.now) result }
{
    let Some(n) = number(value) else {
        return None;
    };
    if (0..=4_294_967_295).contains(&n) {
        Some(n as u32)
    } else {
        None
    }
}

// A file name of at least one character.
pub(crate) fn file_name(value: &str) -> Option<&str>
    ensures { MatchOption result (value.now ≡ []) (λ name. IsFile value.now name.now) }
{
    if value.is_empty() { None } else { Some(value) }
}

// An isovalue within its limits.
pub(crate) fn isovalue(value: &str) -> Option<i64>
    ensures { Finds (IsIsovalue value.now) result }
{
    let Some(n) = number(value) else {
        return None;
    };
    if (-ISO_LIMIT..=ISO_LIMIT).contains(&n) {
        Some(n)
    } else {
        None
    }
}

// The first isovalue of a range that goes with the last one, where that was given.
pub(crate) fn first_isovalue(to: Option<i64>, value: &str) -> Option<i64>
    ensures { Finds (IsFirstBeside to value.now) result }
{
    let Some(from) = isovalue(value) else {
        return None;
    };
    if in_order(Some(from), to) {
        Some(from)
    } else {
        None
    }
}

// The last isovalue of a range that goes with the first one, where that was given.
pub(crate) fn last_isovalue(from: Option<i64>, value: &str) -> Option<i64>
    ensures { Finds (IsLastBeside from value.now) result }
{
    let Some(to) = isovalue(value) else {
        return None;
    };
    if in_order(from, Some(to)) {
        Some(to)
    } else {
        None
    }
}

// Whether two isovalues are the ends of a range, where both were given.
fn in_order(from: Option<i64>, to: Option<i64>) -> bool
    ensures yes { OnTrue result (InOrder from to) }
    ensures no { OnFalse result (¬ InOrder from to) }
{
    match (from, to) {
        (Some(from), Some(to)) => from <= to && to.abs_diff(from) < MOST_ISOVALUES,
        _ => true,
    }
}

// A number that fits 64 bits.
fn number(value: &str) -> Option<i64>
    ensures { MatchOption result ((n : ℤ) → FitsSigned w64 n → ¬ IsNumber value.now n) (λ n. IsNumber value.now n) }
{
    if !is_plain(value) {
        return None;
    }
    match value.parse::<i64>() {
        Ok(n) => Some(n),
        Err(_) => None,
    }
}

// Whether a text is an optional `-` and digits, without a leading zero but `0` itself, and not `-0`.
fn is_plain(text: &str) -> bool
    ensures { result ≡ is_number text.now }
{
    are_plain(without_minus(text.as_bytes())) && text != "-0"
}

// The text without a leading `-`.
fn without_minus(text: &[u8]) -> &[u8]
    ensures { result.now ≡ (if starts_with_minus text.now then drop 1 text.now else text.now) }
{
    match text {
        [b'-', digits @ ..] => digits,
        _ => text,
    }
}

// Whether these are digits, at least one, without a leading zero but `0` itself.
fn are_plain(digits: &[u8]) -> bool
    ensures { result ≡ are_digits_alone digits.now }
{
    !digits.is_empty() && are_digits(digits) && (digits.len() == 1 || digits[0] != b'0')
}

// Whether each byte is a digit.
fn are_digits(bytes: &[u8]) -> bool
    ensures { result ≡ all_ascii_digits bytes.now }
{
    bytes.iter().all(|b| b.is_ascii_digit())
}
