//! Indexes of rows: the places of some rows of a list, in rising order of a key, so that those with a key are found by a
//! search.
//!
//! The rows stay their owner's. An index has their places alone, is told of each row that comes, changes or ends, and is
//! given the rows with each question.
#![tactic(auto)]

mod index;
mod keyed;
mod search;

pub use index::Index;
pub use keyed::{Asked, Keyed};
