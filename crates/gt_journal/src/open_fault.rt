ghost use Rattle.std.specs.Prelude.{◌≡◌};
ghost use Rattle.gt_journal.specs.declared.open_fault.OpenFault.TheVariants.{JournalFault, OutOfMemory};

use gt_causes::Failed;
use std::alloc::{AllocError, AllocFailed};
use thiserror::Error;

/// Why a journal was not opened.
#[derive(Debug, Drop, Error)]
pub enum OpenFault {
    /// The disk failed, and its count of faults rose.
    #[error("the journal's disk failed")]
    JournalFault,
    /// The record of this number, counted from 0, has an open gate and a length that runs past the file. The bodies of
    /// the records before it come along.
    #[error("record {at_record} of the journal runs past its end")]
    Damaged {
        at_record: u64,
        bodies: Vec<Vec<u8>>,
    },
    #[error("out of memory")]
    OutOfMemory,
}

impl From<Failed> for OpenFault {
    ghost from_gives = { λ _ e. e ≡ JournalFault };

    fn from(_: Failed) -> Self {
        OpenFault::JournalFault
    }
}

impl From<AllocError> for OpenFault {
    ghost from_gives = { λ _ e. e ≡ OutOfMemory };

    fn from(_: AllocError) -> Self {
        OpenFault::OutOfMemory
    }
}

impl<T: Drop> From<AllocFailed<T>> for OpenFault {
    ghost from_gives = { λ _ e. e ≡ OutOfMemory };

    fn from(_: AllocFailed<T>) -> Self {
        OpenFault::OutOfMemory
    }
}
