ghost use Rattle.std.specs.Prelude.{◌≡◌};
ghost use Rattle.gt_forest.specs.Answers.{IsBounded};
ghost use Rattle.gt_forest.specs.Calls as call;
ghost use Rattle.gt_forest.specs.Listing as listing;

use gt_types::{Kind, Stat};
use gt_values::{Bytes, Moment};

/// What stands at a path of a tree: a file by its bytes, or a folder. `mtime` is when it was last written.
#[derive(Debug, Drop)]
pub enum Node {
    File { bytes: Bytes, mtime: Moment },
    Folder { mtime: Moment },
}

impl Node {
    /// A file or a folder.
    pub(crate) fn kind(&self) -> Kind
        ensures { result ≡ listing.kind_of self.now }
    {
        match self {
            Node::File { .. } => Kind::File,
            Node::Folder { .. } => Kind::Folder,
        }
    }

    /// Its kind, its size and its time.
    pub(crate) fn stat(&self) -> Stat
        ensures value { result ≡ call.stat_of self.now }
        ensures room { IsBounded result }
    {
        match self {
            Node::File { bytes, mtime } => stat_at(Kind::File, bytes.len() as u64, *mtime),
            Node::Folder { mtime } => stat_at(Kind::Folder, 0, *mtime),
        }
    }
}

// Of this kind, size and time.
fn stat_at(kind: Kind, size: u64, mtime: Moment) -> Stat
    ensures value { result ≡ record { kind = kind; size = size; mtime = mtime } }
    ensures room { IsBounded result }
{
    // For the proof: a moment is a number of 64 bits.
    let _seconds = mtime.seconds();
    Stat { kind, size, mtime }
}
