ghost use Rattle.std.specs.Prelude.{◌≡◌};
ghost use Rattle.gt_disk.specs.declared.suite_fault.SuiteFault.TheVariants.{DiskFault, OutOfMemory};

use gt_causes::Failed;
use std::alloc::{AllocError, AllocFailed};

/// Why the suite stopped.
#[derive(Clone, Copy, Debug, PartialEq, Eq)]
pub enum SuiteFault {
    /// A call of the disk failed, which is no verdict on it.
    DiskFault,
    /// The file hasn't the length that was written.
    WrongLength,
    /// A read gave other bytes than were written.
    WrongBytes,
    /// Memory was wanting, which is no verdict on the disk.
    OutOfMemory,
}

impl From<Failed> for SuiteFault {
    ghost from_gives = { λ _ e. e ≡ DiskFault };

    fn from(_: Failed) -> Self {
        SuiteFault::DiskFault
    }
}

impl From<AllocError> for SuiteFault {
    ghost from_gives = { λ _ e. e ≡ OutOfMemory };

    fn from(_: AllocError) -> Self {
        SuiteFault::OutOfMemory
    }
}

impl<T: Drop> From<AllocFailed<T>> for SuiteFault {
    ghost from_gives = { λ _ e. e ≡ OutOfMemory };

    fn from(_: AllocFailed<T>) -> Self {
        SuiteFault::OutOfMemory
    }
}
