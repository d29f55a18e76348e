//! Calls that are numbered, some of which are to fail.

ghost use Rattle.std.specs.Prelude.{◌≡◌, ◌≤◌, OnOk, OnErr};
ghost use Rattle.stp_io.specs.Calls.{no_calls, with_failing, fails_now, after_call, after_fault};
ghost use Rattle.stp_io.specs.Store.{HasRisen};

use std::alloc::Global;
use stp_base::{List, Memory};

/// The calls of a store or a sink in memory, numbered from 1; a counter at its last value stands still.
#[derive(Drop)]
pub struct Calls {
    failing: List<u64>,
    next: u64,
    faults: u64,
}

impl Calls {
    /// No call, none of which is to fail.
    pub fn new(alloc: Global) -> Calls
        ensures { result ≡ no_calls }
    {
        Calls {
            failing: List::new(alloc),
            next: 1,
            faults: 0,
        }
    }

    /// Adds the number of a call that is to fail.
    pub fn fail_call(&mut self, number: u64) -> Result<(), Memory>
        ensures ok { OnOk result (self.new ≡ with_failing number self.old) }
        ensures err { OnErr result (self.new ≡ self.old) }
    {
        self.failing.push(number)
    }

    /// Makes the next call, and tells whether it is to fail.
    pub fn begin(&mut self) -> bool
        ensures fails { result ≡ fails_now self.old }
        ensures after { self.new ≡ after_call self.old }
        ensures onward { self.old.next ≤ self.new.next }
    {
        let fails = self.failing.as_slice().contains(&self.next);
        self.next = self.next.saturating_add(1);
        fails
    }

    /// Counts a call that failed.
    pub fn count_fault(&mut self)
        ensures after { self.new ≡ after_fault self.old }
        ensures risen { HasRisen self.old.faults self.new.faults }
        ensures counts { self.old.faults ≤ self.new.faults }
    {
        self.faults = self.faults.saturating_add(1);
    }
}
