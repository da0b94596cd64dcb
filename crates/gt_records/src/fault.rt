use std::alloc::{AllocError, AllocFailed};
use thiserror::Error;

/// Why bytes are not decoded.
#[derive(Clone, Copy, Debug, PartialEq, Eq, Error)]
pub enum DecodeFault {
    /// The bytes are no event's text.
    #[error("the bytes are no record")]
    NotRecord,
    /// There was no memory for the event.
    #[error("out of memory")]
    OutOfMemory,
}

impl From<AllocError> for DecodeFault {
    ghost use Rattle.gt_records.specs.declared.fault.DecodeFault.TheVariants.{OutOfMemory};
    ghost use Rattle.std.specs.Prelude.{◌≡◌};

    ghost from_gives = { λ _ fault. fault ≡ OutOfMemory };

    fn from(_: AllocError) -> DecodeFault {
        DecodeFault::OutOfMemory
    }
}

impl<T: Drop> From<AllocFailed<T>> for DecodeFault {
    ghost use Rattle.gt_records.specs.declared.fault.DecodeFault.TheVariants.{OutOfMemory};
    ghost use Rattle.std.specs.Prelude.{◌≡◌};

    ghost from_gives = { λ _ fault. fault ≡ OutOfMemory };

    fn from(_: AllocFailed<T>) -> DecodeFault {
        DecodeFault::OutOfMemory
    }
}
