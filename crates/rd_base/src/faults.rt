ghost use Rattle.std.specs.Prelude.{◌≡◌, ◌≤◌, OnOk, OnErr, IsTrue};
ghost use Rattle.rd_base.specs.Causes.{Rose};
ghost use Rattle.rd_base.specs.Faults.{none_planned, fails_next, after_call, with_fault, failing_at};

use crate::memory::OutOfMemory;
use std::alloc::Global;
use std::marker::Model;

/// The faults of an object in memory: those that it is to have, and those that it counted.
///
/// Calls are numbered from 1. Both counts stand still at the end of their type.
#[derive(Debug, Drop)]
pub struct Faults {
    calls: u64,
    failing: Vec<u64>,
    count: u64,
}

impl Model for Faults {
    ghost use Rattle.rd_base.specs.Faults.{Planned};

    ghost Value = { Planned };

    ghost view = { λ f. record { calls = f.calls; failing = f.failing.items; count = f.count } };
}

impl Faults {
    pub fn new(alloc: Global) -> Faults
        ensures { result ≡ none_planned }
    {
        Faults {
            calls: 0,
            failing: Vec::new(alloc),
            count: 0,
        }
    }

    /// Makes the call of this number fail.
    pub fn fail_at(&mut self, number: u64) -> Result<(), OutOfMemory>
        ensures ok { OnOk result (self.new ≡ failing_at self.old number) }
        ensures err { OnErr result (self.new ≡ self.old) }
    {
        self.failing.push(number)?;
        Ok(())
    }

    /// Counts a call, and its fault where it is to fail. The answer says whether it is.
    pub fn begin_call(&mut self) -> bool
        ensures fails { result ≡ fails_next self.old }
        ensures counted { self.new ≡ after_call self.old }
        ensures cause { IsTrue result → Rose self.old.count self.new.count }
        ensures never_falls { self.old.count ≤ self.new.count }
    {
        self.calls = self.calls.saturating_add(1);
        let fails = self.failing.contains(&self.calls);
        if fails {
            self.count = self.count.saturating_add(1);
        }
        fails
    }

    /// Counts a fault.
    pub fn add(&mut self)
        ensures counted { self.new ≡ with_fault self.old }
        ensures cause { Rose self.old.count self.new.count }
        ensures never_falls { self.old.count ≤ self.new.count }
    {
        self.count = self.count.saturating_add(1);
    }
}
