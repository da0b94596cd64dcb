ghost use Rattle.std.specs.Prelude.{Contains, IfOk, IsErr, OnOk, ◌≡◌, ◌≤◌, ◌↔◌, ℕ};
ghost use Rattle.gt_causes.specs.Counts.{IsListed, after_answer, after_fault, counted};

use crate::{CallList, Failed};
use std::alloc::{AllocError, Global};
use std::marker::Model;

/// What a device in memory counts: its calls, those that failed, and those that found no memory. Each number stops at
/// 2^64 - 1.
#[derive(Drop)]
pub struct CallCounts {
    fails: CallList,
    calls: u64,
    faults: u64,
    starved: u64,
}

impl Model for CallCounts {
    ghost use Rattle.gt_causes.specs.Counts.{Counts};

    ghost Value = { Counts };

    ghost view = { λ c. record {
      fails = c.fails;
      calls = c.calls;
      faults = c.faults;
      starved = c.starved;
    } };
}

impl CallCounts {
    /// No call yet. Those that `fails` lists, counted from 1, are to fail.
    pub fn new(fails: Vec<u64>) -> CallCounts
        ensures fresh { result
            ≡ record { fails = result.fails; calls = 0; faults = 0; starved = 0 } }
        ensures listed { (n : ℕ) → Contains result.fails n ↔ Contains fails.items n }
    {
        CallCounts {
            fails: CallList::new(fails),
            calls: 0,
            faults: 0,
            starved: 0,
        }
    }

    /// The same counts once more, for a device that is copied.
    pub fn copy(&self, alloc: Global) -> Result<CallCounts, AllocError>
        ensures { IfOk result (λ counts. counts ≡ self.now) }
    {
        Ok(CallCounts {
            fails: self.fails.copy(alloc)?,
            calls: self.calls,
            faults: self.faults,
            starved: self.starved,
        })
    }

    /// Counts a call, which fails exactly where it is listed.
    pub fn count_call(&mut self) -> Result<(), Failed>
        ensures ok { OnOk result (self.new ≡ after_answer self.old) }
        ensures err { IsErr result → self.new ≡ after_fault self.old }
        ensures cause { IsErr result ↔ IsListed self.old }
        ensures same { self.old.faults ≤ self.new.faults }
    {
        self.calls = self.calls.saturating_add(1);
        if self.fails.has(self.calls) {
            return Err(self.refuse());
        }
        Ok(())
    }

    /// Counts a fault.
    pub fn refuse(&mut self) -> Failed
        ensures value { self.new ≡ record self.old { faults = counted self.old.faults } }
        ensures same { self.old.faults ≤ self.new.faults }
    {
        self.faults = self.faults.saturating_add(1);
        Failed
    }

    /// Counts a fault for want of memory.
    pub fn starve(&mut self) -> Failed
        ensures value { self.new
            ≡ record self.old {
              faults = counted self.old.faults;
              starved = counted self.old.starved;
            } }
        ensures same { self.old.faults ≤ self.new.faults }
    {
        self.starved = self.starved.saturating_add(1);
        self.refuse()
    }

    /// How many calls were made, those that failed too.
    pub fn calls(&self) -> u64
        ensures { result ≡ self.now.calls }
    {
        self.calls
    }

    /// How many calls failed.
    pub fn faults(&self) -> u64
        ensures { result ≡ self.now.faults }
    {
        self.faults
    }

    /// How many calls found no memory.
    pub fn starved(&self) -> u64
        ensures { result ≡ self.now.starved }
    {
        self.starved
    }
}
