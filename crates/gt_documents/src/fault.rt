use crate::place::Place;
use std::alloc::{AllocError, AllocFailed};
use thiserror::Error;

/// Why a document or a query is not read: the first place that is bad, or want of memory.
#[derive(Debug, Drop, Error)]
pub enum DocumentFault {
    #[error("bad document")]
    Bad(Place),
    #[error("out of memory")]
    OutOfMemory,
}

impl From<Place> for DocumentFault {
    ghost use Rattle.gt_documents.specs.declared.fault.DocumentFault.TheVariants.{Bad};
    ghost use Rattle.std.specs.Prelude.{◌≡◌};

    ghost from_gives = { λ place fault. fault ≡ Bad place };

    fn from(place: Place) -> DocumentFault {
        DocumentFault::Bad(place)
    }
}

impl From<AllocError> for DocumentFault {
    ghost use Rattle.gt_documents.specs.declared.fault.DocumentFault.TheVariants.{OutOfMemory};
    ghost use Rattle.std.specs.Prelude.{◌≡◌};

    ghost from_gives = { λ _ fault. fault ≡ OutOfMemory };

    fn from(_: AllocError) -> DocumentFault {
        DocumentFault::OutOfMemory
    }
}

impl<T: Drop> From<AllocFailed<T>> for DocumentFault {
    ghost use Rattle.gt_documents.specs.declared.fault.DocumentFault.TheVariants.{OutOfMemory};
    ghost use Rattle.std.specs.Prelude.{◌≡◌};

    ghost from_gives = { λ _ fault. fault ≡ OutOfMemory };

    fn from(_: AllocFailed<T>) -> DocumentFault {
        DocumentFault::OutOfMemory
    }
}
