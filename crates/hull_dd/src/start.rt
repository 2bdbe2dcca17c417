//! The first D + 1 points, and the generators of the half-spaces that hold them.

ghost use Rattle.std.specs.Prelude.{◌≡◌, ◌<◌, ◌≤◌, All, IfOk, IfSome, OnOk, ◌++◌, ◌∷◌, [], length};
ghost use Rattle.polynomials.specs.Small.{AreSmall};
ghost use Rattle.hull_dd.specs.Generators.{Generate};
ghost use Rattle.hull_dd.specs.Starts.{IsOpposite, IsSetOf};

use crate::combine::combination;
use crate::generators::Generator;
use crate::spread::spread;
use halfspace::{points_at, slack};
use iso_base::Memory;
use small_turn::hyper;

// The set of these points.
fn set_of<const D: usize>(choice: &[usize; D]) -> u64
    requires { All (λ i. i < 48) choice.now }
    ensures { IsSetOf choice.now result }
{
    let mut set = 0;
    for i in choice {
        set |= 1 << *i;
    }
    set
}

// The generator that is tight at the chosen points and holds a further one off its boundary. `None` where that one lies
// in a hyperplane with the chosen points.
fn opposite<const D: usize>(
    points: &[[i32; D]],
    choice: &[usize; D],
    apart: usize,
) -> Option<Generator<D>>
    requires least { 2 ≤ D }
    requires greatest { D ≤ 4 }
    requires number { length points.now ≤ 48 }
    requires small { All (λ point. AreSmall 32 point) points.now }
    requires wide { All (λ p. length p ≡ D) points.now }
    requires inside { All (λ i. i < length points.now) choice.now }
    requires apart { apart < length points.now }
    ensures { IfSome result (λ g. IsOpposite D points.now choice.now apart g) }
{
    let half = hyper(&points_at(points, choice));
    let distance = slack(&half, &points[apart]);
    if distance == 0 {
        return None;
    }
    let tight = set_of(choice);
    if distance > 0 {
        return Some(Generator { half, tight });
    }
    Some(Generator {
        half: combination(0, &half, 1, &half),
        tight,
    })
}

fn push<const D: usize>(
    generators: &mut Vec<Generator<D>>,
    generator: Generator<D>,
) -> Result<(), Memory>
    ensures { OnOk result (generators.new.items ≡ generators.old.items ++ generator.entry ∷ []) }
{
    match generators.push(generator) {
        Ok(()) => Ok(()),
        Err(_) => Err(Memory),
    }
}

/// The set of D + 1 points that lie in no hyperplane, with the generators of the half-spaces that hold them, in place
/// of what was there. For each of the points there is one that is tight at the others and not at it. `None` where such
/// points are not found.
pub(crate) fn start<const D: usize>(
    points: &[[i32; D]],
    generators: &mut Vec<Generator<D>>,
) -> Result<Option<u64>, Memory>
    requires least { 2 ≤ D }
    requires greatest { D ≤ 4 }
    requires number { length points.now ≤ 48 }
    requires small { All (λ point. AreSmall 32 point) points.now }
    requires wide { All (λ p. length p ≡ D) points.now }
    ensures { IfOk result (λ found. IfSome found (λ seen. Generate D points.now seen generators.new.items)) }
{
    generators.clear();
    if points.is_empty() {
        return Ok(None);
    }
    let corners = spread(points, 0, u64::MAX);
    let Some(first) = opposite(points, &corners, 0) else {
        return Ok(None);
    };
    push(generators, first)?;
    for k in 0..D {
        let mut others = corners;
        others[k] = 0;
        let Some(next) = opposite(points, &others, corners[k]) else {
            return Ok(None);
        };
        push(generators, next)?;
    }
    Ok(Some(set_of(&corners) | 1))
}
