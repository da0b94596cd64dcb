use crate::act::Side;
use crate::change::{DeadlineChange, LabelChange};
use crate::outcome::Outcome;
use crate::rule::{AccessSpec, PauseSpec};
use crate::spec::{DeleteSpec, TransferSpec};
use gt_values::{Id, Moment};

/// What one step of the machine does. Rules, tasks and items are named by their numbers.
#[derive(Clone, Debug, PartialEq, Eq, Drop)]
pub enum Happening {
    /// A submission identifier is issued to this identity.
    Issue {
        identity: Id,
    },
    /// The owner's submission makes a task.
    SubmitTransfer {
        owner: Id,
        submission: Id,
        spec: TransferSpec,
    },
    /// The owner's submission makes a task that deletes.
    SubmitDelete {
        owner: Id,
        submission: Id,
        spec: DeleteSpec,
    },
    /// An access rule is added.
    AccessAdd {
        collection: u32,
        spec: AccessSpec,
    },
    /// A live access rule ends, and one of the same number with this permission begins.
    AccessReplace {
        rule: u64,
        write: bool,
    },
    /// A live access rule ends.
    AccessEnd {
        rule: u64,
    },
    /// A pause rule is added.
    PauseAdd {
        spec: PauseSpec,
    },
    /// A live pause rule ends.
    PauseEnd {
        rule: u64,
    },
    /// A task closes at its owner's word.
    Cancel {
        task: u64,
    },
    /// A task's label and deadline change.
    Update {
        task: u64,
        label: LabelChange,
        deadline: DeadlineChange,
    },
    /// A worker (1 to 16) gets an item.
    GrantItem {
        worker: u8,
        item: u64,
    },
    /// An item ends since its owner lacks the right on this side.
    RefuseItem {
        item: u64,
        side: Side,
    },
    /// The worker that got the item at the event `grant` reports how its attempt ended.
    ReportItem {
        item: u64,
        grant: u64,
        outcome: Outcome,
    },
    /// A task closes since its deadline has passed.
    Sweep {
        task: u64,
    },
    /// The desk was opened again, and each running item waits for a worker anew.
    Restart,
}

/// One step of the machine, as the journal records it, with its moment.
#[derive(Clone, Debug, PartialEq, Eq, Drop)]
pub struct Event {
    pub moment: Moment,
    pub what: Happening,
}
