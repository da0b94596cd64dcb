//! Tasks: their rows in order of making, found by the identity that made a task and its submission identifier.
#![tactic(auto)]

mod row;
mod tasks;

pub use row::TaskRow;
pub use tasks::Tasks;
