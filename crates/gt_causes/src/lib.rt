//! When a device may say that it failed, and what a device in memory counts: what every trait of the outside cites.
//!
//! A device counts its faults in a number that never falls and stops at 2^64 - 1. A failure is told only where that
//! number rose in the call, so that no body can give up by itself (`specs/Causes.antt`). What a crash may leave is a
//! test of outcomes (`specs/Outcomes.antt`).
#![tactic(auto)]

mod call_counts;
mod call_list;
mod failed;

pub use call_counts::CallCounts;
pub use call_list::CallList;
pub use failed::Failed;
