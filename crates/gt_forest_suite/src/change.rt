// The calls that write, as one.
ghost use Rattle.std.specs.Prelude.{◌<◌, ◌≡◌};
ghost use Rattle.gt_forest.specs.Words.{IsCounted, IsSameForest, OnTold};
ghost use Rattle.gt_forest_suite.specs.Suite.{Changed};

use gt_forest::{Forest, TreeFault};
use gt_paths::Path;
use gt_values::{Bytes, Moment};
use std::alloc::Global;

/// A call that writes.
#[derive(Drop)]
pub(crate) enum Change {
    Open { key: u64 },
    Append { key: u64, bytes: Bytes },
    Place { key: u64, path: Path, mtime: Moment },
    Discard { key: u64 },
    Make { path: Path },
    RemoveFile { path: Path },
    RemoveDir { path: Path },
}

/// Makes the call.
pub(crate) fn make_change<F: Forest>(
    alloc: Global,
    forest: &mut F,
    collection: u32,
    change: &Change,
) -> Result<(), TreeFault>
    requires { collection < F.words.collections forest.old }
    ensures same { IsSameForest F.words forest.old forest.new }
    ensures cause { IsCounted F.words forest.old result forest.new }
    ensures told { OnTold F.words forest.old forest.new (Changed collection change.now result) }
{
    match change {
        Change::Open { key } => forest.stage_open(alloc, collection, *key),
        Change::Append { key, bytes } => {
            forest.stage_append(alloc, collection, *key, bytes.as_slice())
        }
        Change::Place { key, path, mtime } => {
            forest.stage_place(alloc, collection, *key, path, *mtime)
        }
        Change::Discard { key } => forest.stage_drop(collection, *key),
        Change::Make { path } => forest.make_dir(alloc, collection, path),
        Change::RemoveFile { path } => forest.remove_file(collection, path),
        Change::RemoveDir { path } => forest.remove_dir(collection, path),
    }
}
