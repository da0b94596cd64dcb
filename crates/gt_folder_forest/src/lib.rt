//! Folders of the system as a forest: `DirForest`, over any `Folders`.
//!
//! It tells nothing of what it holds: of each call it is proved that it fails only where it counts a fault, and what it may
//! answer (`specs/Forest.antt`).
#![tactic(auto)]

mod changing;
mod forest;
mod leftovers;
mod listing;
mod reading;
mod spot;
mod staging;
mod trail;
mod trees;
mod trouble;

pub use forest::{DirForest, send_forest};
pub use leftovers::Cleared;
