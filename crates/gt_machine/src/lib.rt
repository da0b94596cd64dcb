//! The machine of a desk: its state, what it answers to a request, and what each event changes.
//!
//! A state is what a list of events leads to (`specs/Run.antt`). `State::decide` answers a request by an event or without
//! one, `State::plan` takes all memory that the event's step needs, and `State::commit` makes the step.
#![tactic(auto)]

mod change;
mod commit;
mod decide;
mod decision;
mod documents;
mod forms;
mod laws;
mod line;
mod lists;
mod named;
mod plan;
mod rule_answers;
mod state;
mod take;
mod task_answers;

pub use change::{Change, PlanFault, Prepared};
pub use decision::Decision;
pub use laws::{
    empty_states_are_reached, identifiers_name_what_is_made, pages_join,
    replies_show_what_is_the_callers, runs_are_sound, runs_go_on, runs_have_fronts,
    steps_are_recordable, steps_stay_reached,
};
pub use line::TaskLine;
pub use state::State;
