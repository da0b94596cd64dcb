use gt_values::{Moment, Text};

/// What an update does to a task's label: keeps it, sets one, or sets none.
#[derive(Clone, Debug, PartialEq, Eq, Drop)]
pub enum LabelChange {
    Keep,
    Set(Option<Text>),
}

/// What an update does to a task's deadline: keeps it, sets one, or sets none.
#[derive(Clone, Copy, Debug, PartialEq, Eq)]
pub enum DeadlineChange {
    Keep,
    Set(Option<Moment>),
}
