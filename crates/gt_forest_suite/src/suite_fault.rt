ghost use Rattle.std.specs.Prelude.{◌≡◌};
ghost use Rattle.gt_forest_suite.specs.declared.suite_fault.SuiteFault.TheVariants.{OutOfMemory};

use std::alloc::{AllocError, AllocFailed};
use thiserror::Error;

/// Why the suite stopped.
#[derive(Clone, Copy, Debug, PartialEq, Eq, Error)]
pub enum SuiteFault {
    /// A call of the forest failed, which is no verdict on it.
    #[error("the forest failed")]
    ForestFault,
    /// The call of this number, counted from 1, had another answer than it should have.
    #[error("call {call} had another answer")]
    OtherAnswer { call: u64 },
    /// Memory was wanting, which is no verdict on the forest.
    #[error("out of memory")]
    OutOfMemory,
}

impl From<AllocError> for SuiteFault {
    ghost from_gives = { λ _ fault. fault ≡ OutOfMemory };

    fn from(_: AllocError) -> SuiteFault {
        SuiteFault::OutOfMemory
    }
}

impl<T: Drop> From<AllocFailed<T>> for SuiteFault {
    ghost from_gives = { λ _ fault. fault ≡ OutOfMemory };

    fn from(_: AllocFailed<T>) -> SuiteFault {
        SuiteFault::OutOfMemory
    }
}
