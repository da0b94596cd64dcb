//! One suite for every forest, those in memory and real folders: it asks the forest and one in memory the same calls, and
//! finds the first that is answered otherwise.
#![tactic(auto)]

mod change;
mod compare;
mod steps;
mod suite;
mod suite_fault;
#[cfg(test)]
mod tests;
mod trial;
#[cfg(test)]
mod wrong;

pub use suite::forest_suite;
pub use suite_fault::SuiteFault;
