use gt_paths::Path;
use gt_values::{Id, Sequence, Text};

/// Whom an access rule speaks of. `Anonymous` and `AllAuthenticated` match every caller.
#[derive(Clone, Copy, Debug, PartialEq, Eq, PartialOrd, Ord)]
pub enum Principal {
    Identity(Id),
    Group(Id),
    AllAuthenticated,
    Anonymous,
}

/// An access rule: who may read below the path, and also write there where `write` is true.
#[derive(Clone, Debug, PartialEq, Eq, Drop)]
pub struct AccessSpec {
    pub principal: Principal,
    pub path: Path,
    pub write: bool,
}

/// A pause rule: which acts wait on the collection, of this identity's tasks or, without one, of all tasks.
/// `rename` is kept and shown, and has no effect.
#[derive(Clone, Debug, PartialEq, Eq, Drop)]
pub struct PauseSpec {
    pub collection: u32,
    pub identity: Option<Id>,
    pub message: Text,
    pub transfer_read: bool,
    pub transfer_write: bool,
    pub delete: bool,
    pub ls: bool,
    pub mkdir: bool,
    pub rename: bool,
}

/// A caller, with the groups of its identity.
#[derive(Clone, Debug, PartialEq, Eq, Drop)]
pub struct Who {
    pub identity: Id,
    pub groups: Sequence<Id>,
}
