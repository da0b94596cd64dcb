//! Access rules with lives, and the right that they give a caller at an event.
//!
//! A rule's rows are kept when they end, so that a right is known for each event that has passed.
#![tactic(auto)]

mod filed;
mod key;
mod look_up;
mod right;
mod row;
mod rules;
mod search;

pub use row::{AccessRow, Right};
pub use rules::Rules;
