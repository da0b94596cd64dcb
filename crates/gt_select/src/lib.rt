//! Which entries of a folder a transfer takes: patterns of names, filter rules, and the sync levels of files.
//!
//! None of these calls takes memory.
#![tactic(auto)]

mod class;
mod filter;
mod level;
mod pattern;
mod piece;
mod reach;

pub use filter::first_rule;
pub use level::needs_copy;
pub use pattern::pattern_matches;
