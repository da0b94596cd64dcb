use gt_paths::Name;
use gt_values::{Exact, Moment};

/// What stands at a path.
#[derive(Clone, Copy, Debug, PartialEq, Eq)]
pub enum Kind {
    File,
    Folder,
}

/// What a tree tells of a path: `size` in bytes, 0 for a folder, and when it was last written.
#[derive(Clone, Copy, Debug, PartialEq, Eq)]
pub struct Stat {
    pub kind: Kind,
    pub size: u64,
    pub mtime: Moment,
}

/// One name in a folder's listing.
#[derive(Clone, Debug, PartialEq, Eq, Drop)]
pub struct Entry {
    pub name: Name,
    pub kind: Kind,
}

impl Exact for Entry {
    ghost use Rattle.std.proofs.Common.{rules};

    ghost exact = { Prim.search rules };
}
