//! One point more.

ghost use Rattle.std.specs.Prelude.{◌≡◌, ℕ, ℤ, ◌^◌, ◌<◌, ◌≤◌, List, length, All, Contains, IfOk, IsTrue, OnOk};
ghost use Rattle.polynomials.specs.Small.{IsSmall, AreSmall};
ghost use Rattle.iso_model.specs.Turns.{slack};
ghost use Rattle.hull_dd.specs.Generators.{HasSmallNumbers};
ghost use Rattle.hull_dd.specs.Steps.{slacks_at, OfPoint, AreWithin, AreMeetsWithin, HasInside, KeepsOnes, KeepsOnesWith, IsNextOf};

use crate::combine::joined;
use crate::generators::Generator;
use crate::prune::{is_within_some, keep};
use halfspace::slack;
use iso_base::Memory;

// The slacks of a point in the generators, in order, in place of what was there.
fn measure<const D: usize>(
    point: &[i32; D],
    generators: &[Generator<D>],
    slacks: &mut Vec<i64>,
) -> Result<(), Memory>
    requires few { D ≤ 4 }
    requires small { AreSmall 32 point.now }
    requires numbers { All HasSmallNumbers generators.now }
    ensures value { OnOk result (slacks.new.items ≡ slacks_at point.now generators.now) }
    ensures small { OnOk result (AreSmall (2 ^ 32) slacks.new.items) }
{
    slacks.clear();
    for generator in generators {
        match slacks.push(slack(&generator.half, point)) {
            Ok(()) => {}
            Err(_) => return Err(Memory),
        }
    }
    Ok(())
}

// Keeps the generators that are tight at the point.
fn touch<const D: usize>(
    i: usize,
    generators: &[Generator<D>],
    slacks: &[i64],
    next: &mut Vec<Generator<D>>,
) -> Result<(), Memory>
    requires number { i < 48 }
    requires alike { length slacks.now ≡ length generators.now }
    requires small { AreSmall (2 ^ 32) slacks.now }
    ensures { OnOk result (KeepsOnes D i generators.now slacks.now next.old.items next.new.items) }
{
    for (k, generator) in generators.iter().enumerate() {
        if slacks[k] == 0 {
            keep(
                next,
                Generator {
                    half: generator.half,
                    tight: generator.tight | (1 << i),
                },
            )?;
        }
    }
    Ok(())
}

// Keeps the combinations of one generator, which has the point inside, with those that have it outside. Those that are
// tight at fewer than D points are left out. False where a number is too great.
fn combine<const D: usize>(
    i: usize,
    inside: &Generator<D>,
    above: i64,
    generators: &[Generator<D>],
    slacks: &[i64],
    next: &mut Vec<Generator<D>>,
) -> Result<bool, Memory>
    requires number { i < 48 }
    requires alike { length slacks.now ≡ length generators.now }
    requires numbers { All HasSmallNumbers generators.now }
    requires small { AreSmall (2 ^ 32) slacks.now }
    requires inside_small { HasSmallNumbers inside.now }
    requires above_small { IsSmall (2 ^ 32) above }
    ensures { OnOk result (KeepsOnesWith D i inside.now above generators.now slacks.now next.old.items next.new.items) }
{
    for (k, outside) in generators.iter().enumerate() {
        if slacks[k] < 0 {
            let set = (inside.tight & outside.tight) | (1 << i);
            if set.count_ones() as usize >= D && !is_within_some(set, next) {
                match joined(i, inside, above, outside, slacks[k]) {
                    None => return Ok(false),
                    Some(new) => keep(next, new)?,
                }
            }
        }
    }
    Ok(true)
}

// Keeps the combinations of each pair of opposite sides.
fn combine_all<const D: usize>(
    i: usize,
    generators: &[Generator<D>],
    slacks: &[i64],
    next: &mut Vec<Generator<D>>,
) -> Result<bool, Memory>
    requires number { i < 48 }
    requires alike { length slacks.now ≡ length generators.now }
    requires numbers { All HasSmallNumbers generators.now }
    requires small { AreSmall (2 ^ 32) slacks.now }
    ensures { OnOk result (KeepsOnes D i generators.now slacks.now next.old.items next.new.items) }
{
    for (k, inside) in generators.iter().enumerate() {
        if slacks[k] > 0 && !combine(i, inside, slacks[k], generators, slacks, next)? {
            return Ok(false);
        }
    }
    Ok(true)
}

// The meet of the set with that of each generator that has the point outside lies, with the point, within some tight
// set.
fn are_meets_within<const D: usize>(
    i: usize,
    set: u64,
    generators: &[Generator<D>],
    slacks: &[i64],
    next: &[Generator<D>],
) -> bool
    requires number { i < 48 }
    requires alike { length slacks.now ≡ length generators.now }
    requires small { AreSmall (2 ^ 32) slacks.now }
    ensures { IsTrue result → OfPoint generators.now slacks.now (λ x. AreMeetsWithin x i set generators.now next.now) }
{
    for (k, outside) in generators.iter().enumerate() {
        if slacks[k] < 0 && !is_within_some((set & outside.tight) | (1 << i), next) {
            return false;
        }
    }
    true
}

// The same of each generator that has the point inside; and the set of each one that is tight at the point lies, with
// it, within some tight set.
fn are_all_within<const D: usize>(
    i: usize,
    generators: &[Generator<D>],
    slacks: &[i64],
    next: &[Generator<D>],
) -> bool
    requires number { i < 48 }
    requires alike { length slacks.now ≡ length generators.now }
    requires small { AreSmall (2 ^ 32) slacks.now }
    ensures { IsTrue result → OfPoint generators.now slacks.now (λ x. AreWithin x i generators.now next.now) }
{
    for (k, generator) in generators.iter().enumerate() {
        if slacks[k] == 0 && !is_within_some(generator.tight | (1 << i), next) {
            return false;
        }
        if slacks[k] > 0 && !are_meets_within(i, generator.tight, generators, slacks, next) {
            return false;
        }
    }
    true
}

// Adds the generators that have the point inside.
fn stay<const D: usize>(
    generators: &[Generator<D>],
    slacks: &[i64],
    next: &mut Vec<Generator<D>>,
) -> Result<(), Memory>
    requires alike { length slacks.now ≡ length generators.now }
    requires small { AreSmall (2 ^ 32) slacks.now }
    ensures kept { OnOk result (All (Contains next.new.items) next.old.items) }
    ensures inside { OnOk result (OfPoint generators.now slacks.now (λ x. HasInside x generators.now next.new.items)) }
    ensures ones { OnOk result ((i : ℕ) → KeepsOnes D i generators.now slacks.now next.old.items next.new.items) }
{
    for (k, generator) in generators.iter().enumerate() {
        if slacks[k] > 0 {
            match next.push(*generator) {
                Ok(()) => {}
                Err(_) => return Err(Memory),
            }
        }
    }
    Ok(())
}

/// The generators with one point more, in place of what `next` held. False where a number is too great, or where
/// combinations that were left out may be wanted.
pub(crate) fn add_point<const D: usize>(
    points: &[[i32; D]],
    i: usize,
    generators: &[Generator<D>],
    slacks: &mut Vec<i64>,
    next: &mut Vec<Generator<D>>,
) -> Result<bool, Memory>
    requires few { D ≤ 4 }
    requires number { length points.now ≤ 48 }
    requires small { All (λ point. AreSmall 32 point) points.now }
    requires inside { i < length points.now }
    requires numbers { All HasSmallNumbers generators.now }
    ensures { IfOk result (λ done. IsTrue done → IsNextOf D points.now i generators.now next.new.items) }
{
    measure(&points[i], generators, slacks)?;
    next.clear();
    touch(i, generators, slacks, next)?;
    if !combine_all(i, generators, slacks, next)? {
        return Ok(false);
    }
    if !are_all_within(i, generators, slacks, next) {
        return Ok(false);
    }
    stay(generators, slacks, next)?;
    Ok(true)
}
