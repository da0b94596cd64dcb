use gt_setup::Setup;
use thiserror::Error;

/// Why a call of the desk has no answer.
#[derive(Clone, Copy, Debug, PartialEq, Eq, Error)]
pub enum DeskFault {
    /// The journal's disk failed in the call, and its count of faults rose.
    #[error("the journal failed")]
    JournalFault,
    #[error("out of memory")]
    OutOfMemory,
}

/// Why a desk was not opened.
#[derive(Clone, Copy, Debug, PartialEq, Eq, Error)]
pub enum OpenFault {
    /// The journal's disk failed in the call, and its count of faults rose.
    #[error("the journal failed")]
    JournalFault,
    /// The record of this number, counted from 0, is the first that runs past the file, is the text of no event, or
    /// has an event on which the machine has no step.
    #[error("record {at_record} of the journal is damaged")]
    Damaged { at_record: u64 },
    #[error("out of memory")]
    OutOfMemory,
}

/// An opening that was refused. It hands the setup and the disk back.
#[derive(Drop)]
pub struct OpenRefused<D> {
    pub fault: OpenFault,
    pub setup: Setup,
    pub disk: D,
}
