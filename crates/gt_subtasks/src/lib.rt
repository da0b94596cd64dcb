//! Items: what a task does, one act at a time, with the items that a task begins with and its counters.
#![tactic(auto)]

mod growth;
mod item;
mod items;
mod key;
mod laws;
mod tally;

pub use growth::Growth;
pub use item::{Class, How, Item, ItemState};
pub use items::Items;
pub use laws::{classes_sum_to_total, first_items_keep_their_numbers};
