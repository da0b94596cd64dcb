//! Pause rules with lives, and the rule that pauses an act at an event.
//!
//! A rule's row is kept when it ends, so that what was paused is known for each event that has passed.
#![tactic(auto)]

mod key;
mod live;
mod look_up;
mod pauses;
mod row;

pub use pauses::Pauses;
pub use row::{PauseAct, PauseRow};
