use gt_causes::Failed;
use thiserror::Error;

/// The disk failed in the call, and its count of faults rose.
#[derive(Clone, Copy, Debug, PartialEq, Eq, Error)]
#[error("the journal's disk failed")]
pub struct JournalFault;

impl From<Failed> for JournalFault {
    fn from(_: Failed) -> Self {
        JournalFault
    }
}
