use crate::item::Item;
use gt_index::{Asked, Keyed};
use std::cmp::Ordering;

/// Items are found by their task.
impl Keyed for Item {
    type Key = u64;

    ghost key = { λ item. item.task };

    fn compare(&self, other: &Item) -> Ordering {
        self.task.cmp(&other.task)
    }
}

/// The number of a task.
#[derive(Drop)]
pub(crate) struct OfTask(pub(crate) u64);

impl Asked<Item> for OfTask {
    ghost asked = { λ asked. asked.0 };

    fn standing(&self, item: &Item) -> Ordering {
        item.task.cmp(&self.0)
    }
}
