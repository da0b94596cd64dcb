ghost use Rattle.std.specs.Prelude.{Contains, IfOk, IsTrue, ◌↔◌, ◌≡◌, ℕ};

use std::alloc::{AllocError, Global};
use std::marker::Model;

/// Numbers of calls. They are kept in order, so that each look takes few steps.
#[derive(Drop)]
pub struct CallList {
    sorted: Vec<u64>,
}

impl Model for CallList {
    ghost use Rattle.std.specs.Prelude.{List, ℕ};
    ghost use Rattle.gt_causes.specs.Counts.{IsRising};

    ghost Value = { List ℕ };

    ghost view = { λ l. l.sorted.items };

    ghost invariant = { λ l. IsRising l.sorted.items };
}

impl CallList {
    /// These numbers, in any order. It takes no memory.
    pub fn new(numbers: Vec<u64>) -> CallList
        ensures { (n : ℕ) → Contains result n ↔ Contains numbers.items n }
    {
        let mut sorted = numbers;
        sorted.sort_unstable();
        CallList { sorted }
    }

    /// The same numbers once more.
    pub fn copy(&self, alloc: Global) -> Result<CallList, AllocError>
        ensures { IfOk result (λ list. list ≡ self.now) }
    {
        Ok(CallList {
            sorted: self.sorted.to_vec(alloc)?,
        })
    }

    /// Whether the number is one of them.
    pub fn has(&self, number: u64) -> bool
        ensures { IsTrue result ↔ Contains self.now number }
    {
        self.sorted.binary_search(&number).is_ok()
    }
}
