//! The greatest ones among tight sets.

ghost use Rattle.std.specs.Prelude.{◌≡◌, OnOk, filter, not};
ghost use Rattle.hull_dd.specs.declared.generators.Generator.{Generator};
ghost use Rattle.hull_dd.specs.Generators.{is_within, is_within_some, kept_with};

use crate::generators::Generator;
use iso_base::Memory;

/// The one set lies within the other.
pub(crate) fn is_within(set: u64, other: u64) -> bool
    ensures { result ≡ is_within set other }
{
    set & other == set
}

/// Some generator is tight at all points of the set.
pub(crate) fn is_within_some<const D: usize>(set: u64, generators: &[Generator<D>]) -> bool
    ensures { result ≡ is_within_some set generators.now }
{
    for generator in generators {
        if is_within(set, generator.tight) {
            return true;
        }
    }
    false
}

// Drops the generators that are tight at no point out of the set.
fn drop_within<const D: usize>(generators: &mut Vec<Generator<D>>, set: u64)
    ensures { generators.new.items ≡ filter (λ (g : Generator D). not (is_within g.tight set)) generators.old.items }
{
    generators.retain(
        move |old|
            ensures { result ≡ not (is_within old.now.tight set) }
        { !is_within(old.tight, set) },
    );
}

/// Adds a generator, where none is tight at all the points at which it is, and drops those that are tight at no more
/// than it.
pub(crate) fn keep<const D: usize>(
    generators: &mut Vec<Generator<D>>,
    new: Generator<D>,
) -> Result<(), Memory>
    ensures { OnOk result (generators.new.items ≡ kept_with new.entry generators.old.items) }
{
    if is_within_some(new.tight, generators) {
        return Ok(());
    }
    drop_within(generators, new.tight);
    match generators.push(new) {
        Ok(()) => Ok(()),
        Err(_) => Err(Memory),
    }
}
