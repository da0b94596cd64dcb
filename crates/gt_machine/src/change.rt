use gt_subtasks::Growth;
use gt_types::{AccessSpec, Event};
use gt_values::Text;
use thiserror::Error;

/// What the step of an event takes memory for.
#[derive(Debug, Drop)]
pub enum Prepared {
    Nothing,
    /// The label of a new task, and its first items.
    Task { label: Option<Text>, items: Growth },
    /// What an access rule becomes.
    Access { spec: AccessSpec },
}

/// An event that has a step, with all that the step takes memory for: a step that was planned and not yet made.
#[derive(Debug, Drop)]
pub struct Change {
    pub event: Event,
    pub prepared: Prepared,
}

/// Why no step was planned.
#[derive(Clone, Copy, Debug, PartialEq, Eq, Error)]
pub enum PlanFault {
    /// The machine has no step on the event.
    #[error("the event has no step")]
    NoStep,
    #[error("out of memory")]
    OutOfMemory,
}
