//! Calls that are numbered, some of which are to fail.

ghost use Rattle.std.specs.Prelude.{◌≡◌, ◌≤◌};
ghost use Rattle.iso_base.specs.Calls.{one_more, is_to_fail};

use crate::outside::Failed;
use std::marker::Model;

/// The calls of a shelf or a sink in memory, numbered from 0.
///
/// The number of a call stops at 2^64 - 1, so where that number is to fail, each call fails from there on.
#[derive(Drop)]
pub(crate) struct Calls {
    fail: Vec<u64>,
    next: u64,
    faults: u64,
}

impl Model for Calls {
    ghost use Rattle.iso_base.specs.Calls.{NumberedCalls};

    ghost Value = { NumberedCalls };

    ghost view = { λ c. record { fail = c.fail.items; next = c.next; faults = c.faults } };
}

impl Calls {
    /// No call was made. Those with a number in `fail` are to fail.
    pub(crate) fn new(fail: Vec<u64>) -> Calls
        ensures { result ≡ record { fail = fail.items; next = 0; faults = 0 } }
    {
        Calls {
            fail,
            next: 0,
            faults: 0,
        }
    }

    /// Counts a call, and says whether it is to fail.
    pub(crate) fn start(&mut self) -> bool
        ensures fails { result ≡ is_to_fail self.old }
        ensures after { self.new ≡ record self.old { next = one_more self.old.next } }
    {
        let number = self.next;
        self.next = self.next.saturating_add(1);
        self.fail.iter().any(|fail| *fail == number)
    }

    /// Counts a failure.
    pub(crate) fn fault(&mut self) -> Failed
        ensures count { result.count ≡ one_more self.old.faults }
        ensures later { self.old.faults ≤ self.new.faults }
        ensures after { self.new ≡ record self.old { faults = one_more self.old.faults } }
    {
        self.faults = self.faults.saturating_add(1);
        Failed { count: self.faults }
    }
}
