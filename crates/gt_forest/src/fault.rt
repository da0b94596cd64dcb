ghost use Rattle.std.specs.Prelude.{◌≡◌};
ghost use Rattle.gt_forest.specs.declared.fault.TreeFault.TheVariants.{Fault, OutOfMemory};

use gt_causes::Failed;
use std::alloc::{AllocError, AllocFailed};
use thiserror::Error;

/// Why a call of a forest did nothing, or may have failed midway. Where several stand together the first of `Denied`,
/// `NotFound`, `WrongKind` and `NotEmpty` is answered.
#[derive(Clone, Copy, Debug, PartialEq, Eq, Error)]
pub enum TreeFault {
    /// Nothing stands at the path, or the folder that it is in or the staging file isn't there.
    #[error("not found")]
    NotFound,
    /// The path is under a denied one.
    #[error("denied")]
    Denied,
    /// A file stands where a folder is wanted, or the other way round.
    #[error("of another kind")]
    WrongKind,
    /// A folder that is to be removed has entries.
    #[error("not empty")]
    NotEmpty,
    /// The forest failed, and counted it.
    #[error("the forest failed")]
    Fault,
    /// There was no memory for the call, which changed nothing.
    #[error("out of memory")]
    OutOfMemory,
}

impl From<Failed> for TreeFault {
    ghost from_gives = { λ _ fault. fault ≡ Fault };

    fn from(_: Failed) -> TreeFault {
        TreeFault::Fault
    }
}

impl From<AllocError> for TreeFault {
    ghost from_gives = { λ _ fault. fault ≡ OutOfMemory };

    fn from(_: AllocError) -> TreeFault {
        TreeFault::OutOfMemory
    }
}

impl<T: Drop> From<AllocFailed<T>> for TreeFault {
    ghost from_gives = { λ _ fault. fault ≡ OutOfMemory };

    fn from(_: AllocFailed<T>) -> TreeFault {
        TreeFault::OutOfMemory
    }
}
