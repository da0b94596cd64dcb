use crate::row::PauseRow;
use gt_index::{Asked, Keyed};
use gt_values::Id;
use std::cmp::Ordering;

pub(crate) type RuleKey = (u32, Option<Id>);

/// Rows are found by collection and identity.
impl Keyed for PauseRow {
    type Key = RuleKey;

    ghost key = { λ row. (row.spec.collection, row.spec.identity) };

    fn compare(&self, other: &PauseRow) -> Ordering {
        let found = self.spec.collection.cmp(&other.spec.collection);
        found.then_with(|| self.spec.identity.cmp(&other.spec.identity))
    }
}

/// A collection, and whom a rule on it names, if anybody.
#[derive(Drop)]
pub(crate) struct Named {
    pub(crate) collection: u32,
    pub(crate) identity: Option<Id>,
}

impl Asked<PauseRow> for Named {
    ghost asked = { λ named. (named.collection, named.identity) };

    fn standing(&self, row: &PauseRow) -> Ordering {
        let found = row.spec.collection.cmp(&self.collection);
        found.then_with(|| row.spec.identity.cmp(&self.identity))
    }
}
