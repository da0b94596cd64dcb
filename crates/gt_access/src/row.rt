use gt_types::AccessSpec;

/// A row of an access rule. It counts at the events after `born` and before `ended`.
///
/// A rule whose permission changes gets a further row of the same number, and the row before it ends.
#[derive(Debug, Drop)]
pub struct AccessRow {
    /// The number of the rule, from 1.
    pub number: u64,
    pub collection: u32,
    pub spec: AccessSpec,
    /// The number of the event that made the row.
    pub born: u64,
    /// The number of the event that ended it. A row without one is live.
    pub ended: Option<u64>,
}

/// What a caller may do with a path, in rising order. `Write` includes reading.
#[derive(Clone, Copy, Debug, PartialEq, Eq, PartialOrd, Ord)]
pub enum Right {
    Nothing,
    Read,
    Write,
}
