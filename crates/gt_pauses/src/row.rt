use gt_types::PauseSpec;

/// A row of a pause rule. It counts at the events after `born` and before `ended`.
#[derive(Debug, Drop)]
pub struct PauseRow {
    /// The number of the rule, from 1.
    pub number: u64,
    pub spec: PauseSpec,
    /// The number of the event that made the rule.
    pub born: u64,
    /// The number of the event that ended it. A rule without one is live.
    pub ended: Option<u64>,
}

/// What a rule can pause on its collection; each is one member of the rule's document.
#[derive(Clone, Copy, Debug, PartialEq, Eq)]
pub enum PauseAct {
    /// A transfer from the collection.
    TransferRead,
    /// A transfer to the collection, with the removals that it makes there.
    TransferWrite,
    /// A removal by a delete task.
    Delete,
    /// A folder's listing that a caller asks for.
    Ls,
    /// A folder that a caller makes.
    Mkdir,
}
