use crate::change::{DeadlineChange, LabelChange};
use crate::rule::{AccessSpec, PauseSpec};
use crate::spec::{DeleteSpec, TransferSpec};
use gt_values::Id;

/// A request, as read. Tasks and rules are named by the identifiers that stand in the request, collections by their
/// numbers. A page shows at most `limit` rows (1 to 1,000) after the first `offset`.
#[derive(Debug, Drop)]
pub enum Command {
    IssueId,
    SubmitTransfer {
        submission: Id,
        spec: TransferSpec,
    },
    SubmitDelete {
        submission: Id,
        spec: DeleteSpec,
    },
    ListTasks {
        limit: u32,
        offset: u64,
    },
    ShowTask {
        task: Id,
    },
    UpdateTask {
        task: Id,
        label: LabelChange,
        deadline: DeadlineChange,
    },
    CancelTask {
        task: Id,
    },
    ListSuccesses {
        task: Id,
        limit: u32,
        offset: u64,
    },
    ListSkipped {
        task: Id,
        limit: u32,
        offset: u64,
    },
    ShowEndpoint {
        collection: u32,
    },
    ListAccess {
        collection: u32,
    },
    AddAccess {
        collection: u32,
        spec: AccessSpec,
    },
    ShowAccess {
        collection: u32,
        rule: Id,
    },
    EndAccess {
        collection: u32,
        rule: Id,
    },
    ReplaceAccess {
        collection: u32,
        rule: Id,
        write: bool,
    },
    ListPauses,
    AddPause {
        spec: PauseSpec,
    },
    ShowPause {
        rule: Id,
    },
    EndPause {
        rule: Id,
    },
}
