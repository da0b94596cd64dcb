ghost use Rattle.std.specs.Prelude.{◌≡◌};
ghost use Rattle.gt_tasks.specs.Changes.{updated_by};
ghost use Rattle.gt_tasks.specs.Status.{status_of};

use gt_types::{DeadlineChange, LabelChange, Reason, Spec, Status};
use gt_values::{Id, Moment, Text};

/// A task, as the table of tasks keeps it.
///
/// Its label and deadline are those in force; the specification keeps what was submitted. `requested` is the moment of the
/// event that made it, `closing` the reason for which it closes, `completed` the moment at which all its items had ended.
#[derive(Debug, Drop)]
pub struct TaskRow {
    /// The number of the task, from 1.
    pub number: u64,
    /// The identity that made it.
    pub owner: Id,
    pub submission: Id,
    pub spec: Spec,
    pub label: Option<Text>,
    pub deadline: Option<Moment>,
    pub requested: Moment,
    pub closing: Option<Reason>,
    pub completed: Option<Moment>,
}

impl TaskRow {
    /// Active until the task is complete, and then failed where it closed.
    pub fn status(&self) -> Status
        ensures { result ≡ status_of self.now }
    {
        if self.completed.is_none() {
            Status::Active
        } else if self.closing.is_none() {
            Status::Succeeded
        } else {
            Status::Failed
        }
    }

    /// Changes the label and the deadline that are in force: each is kept, set, or set to none.
    pub(crate) fn update(&mut self, label: LabelChange, deadline: DeadlineChange)
        ensures { self.new ≡ updated_by label deadline self.old }
    {
        if let LabelChange::Set(label) = label {
            self.label = label;
        }
        if let DeadlineChange::Set(deadline) = deadline {
            self.deadline = deadline;
        }
    }
}
