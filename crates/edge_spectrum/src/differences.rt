//! A count for each isovalue of a range, kept by how much it grows from each to the next.

ghost use Rattle.std.specs.Prelude.{◌≡◌, ℕ, ◌+◌, ◌^◌, ◌%◌, ◌<◌, ◌≤◌, length, map, take, nat_lt, int_le};
ghost use Rattle.std.specs.Prelude.{◌++◌, ◌∷◌, [], IfOk, OnOk, unsigned_abs};
ghost use Rattle.std.specs.List.{sum};
ghost use Rattle.lists.specs.Orders.{numbers};
ghost use Rattle.iso_model.specs.Bipolar.{differ};
ghost use Rattle.edge_spectrum.specs.Spectrum.{iso_after};
ghost use Rattle.edge_spectrum.specs.Growing.{AreDifferences, Grows, IsNew, one_if};

use iso_base::Memory;
use std::alloc::Global;

/// A count for each isovalue of a range.
#[derive(Drop)]
pub(crate) struct Differences {
    /// The least isovalue, and how many there are.
    pub(crate) from: i64,
    pub(crate) isovalues: usize,
    /// By how much the count grows at each isovalue, modulo 2^64, and one place more for what is past the range.
    pub(crate) steps: Vec<u64>,
}

impl Differences {
    /// Counts that are all 0.
    pub(crate) fn new(alloc: Global, from: i64, isovalues: usize) -> Result<Differences, Memory>
        requires from { unsigned_abs from ≤ 2 ^ 40 }
        requires few { isovalues ≤ 65536 }
        ensures { IfOk result (IsNew from isovalues) }
    {
        match vec![in alloc; 0; isovalues + 1] {
            Ok(steps) => Ok(Differences {
                from,
                isovalues,
                steps,
            }),
            Err(_) => Err(Memory),
        }
    }

    /// Adds an edge with these values at its ends: 1 at each isovalue that one of them reaches and the other does not.
    pub(crate) fn add(&mut self, value: i64, other: i64)
        requires sound { AreDifferences self.old }
        requires small { unsigned_abs value ≤ 2 ^ 40 }
        requires other_small { unsigned_abs other ≤ 2 ^ 40 }
        ensures { Grows self.old self.new (λ iso. one_if (differ (int_le iso value) (int_le iso other))) }
    {
        let reached = self.reached(value);
        let other_reached = self.reached(other);
        let low = reached.min(other_reached);
        let high = reached.max(other_reached);
        self.steps[low] = self.steps[low].wrapping_add(1);
        self.steps[high] = self.steps[high].wrapping_sub(1);
    }

    /// How many isovalues of the range are at most a value.
    fn reached(&self, value: i64) -> usize
        requires sound { AreDifferences self.now }
        requires small { unsigned_abs value ≤ 2 ^ 40 }
        ensures within { result ≤ self.now.isovalues }
        ensures reached { (i : ℕ) → i < self.now.isovalues
            → nat_lt i result ≡ int_le (iso_after self.now.from i) value }
    {
        (value - self.from + 1).clamp(0, self.isovalues as i64) as usize
    }

    /// The counts, one for each isovalue.
    pub(crate) fn counts(&self, alloc: Global) -> Result<Vec<u64>, Memory>
        requires sound { AreDifferences self.now }
        ensures { IfOk result (λ counts. counts.items
            ≡ map (λ i. sum (take (i + 1) self.now.steps.items) % 2 ^ 64) (numbers self.now.isovalues)) }
    {
        let Ok(mut counts) = Vec::with_capacity(alloc, self.isovalues) else {
            return Err(Memory);
        };
        let mut count = 0u64;
        for place in 0..self.isovalues {
            count = count.wrapping_add(self.steps[place]);
            push(&mut counts, count)?;
        }
        Ok(counts)
    }
}

/// Adds a count.
fn push(counts: &mut Vec<u64>, count: u64) -> Result<(), Memory>
    ensures { OnOk result (counts.new.items ≡ counts.old.items ++ count ∷ []) }
{
    match counts.push(count) {
        Ok(()) => Ok(()),
        Err(_) => Err(Memory),
    }
}
