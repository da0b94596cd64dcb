use crate::row::AccessRow;
use gt_index::{Asked, Keyed};
use gt_paths::{Name, Path};
use gt_types::Principal;
use std::cmp::Ordering;

pub(crate) type RuleKey = (u32, Path, Principal);

/// Rows are found by collection, path and principal.
impl Keyed for AccessRow {
    type Key = RuleKey;

    ghost key = { λ row. (row.collection, row.spec.path, row.spec.principal) };

    fn compare(&self, other: &AccessRow) -> Ordering {
        let found = self.collection.cmp(&other.collection);
        let found = found.then_with(|| self.spec.path.cmp(&other.spec.path));
        found.then(self.spec.principal.cmp(&other.spec.principal))
    }
}

/// The names of a path on a collection, and a principal.
#[derive(Drop)]
pub(crate) struct Place<'a> {
    pub(crate) collection: u32,
    pub(crate) names: &'a [Name],
    pub(crate) principal: Principal,
}

impl<'a> Asked<AccessRow> for Place<'a> {
    ghost asked = { λ place. (place.collection, place.names.now, place.principal) };

    fn standing(&self, row: &AccessRow) -> Ordering {
        let found = row.collection.cmp(&self.collection);
        let found = found.then(row.spec.path.as_slice().cmp(self.names));
        found.then(row.spec.principal.cmp(&self.principal))
    }
}
