// One call, asked of the forest that is tried and of one in memory.
ghost use Rattle.std.specs.Prelude.{◌<◌, ◌≡◌, IfErr, IsErrOf, IsTrue, OnOk, length};
ghost use Rattle.std.specs.Result.{result_map_both};
ghost use Rattle.gt_forest.specs.Calls.{ReadAnswer};
ghost use Rattle.gt_forest.specs.Words.{HasFailed, IsSameForest, OnTold};
ghost use Rattle.gt_forest_suite.specs.Suite.{AreMatched, IsNoVerdict};

use crate::change::{Change, make_change};
use crate::compare::{expected, found, verdict};
use crate::suite_fault::SuiteFault;
use gt_forest::{Forest, MemForest, TreeFault, trees_decide_answers};
use gt_paths::{Name, Path};
use gt_types::Stat;
use std::alloc::Global;

fn is_same_stat(found: Result<Stat, TreeFault>, expected: Result<Stat, TreeFault>) -> bool
    ensures { expected ≡ found → IsTrue result }
{
    found == expected
}

/// What stands at the path.
pub(crate) fn try_stat<F: Forest>(
    forest: &mut F,
    model: &mut MemForest,
    collection: u32,
    path: &Path,
) -> Result<(), SuiteFault>
    requires few { collection < 2 }
    requires many { (1 < F.words.collections forest.old) × (1 < length model.old.trees) }
    ensures same { IsSameForest F.words forest.old forest.new
        × (length model.new.trees ≡ length model.old.trees) }
    ensures cause { IsErrOf result SuiteFault.ForestFault
        → HasFailed F.words forest.old forest.new }
    ensures fault { AreMatched F.words forest.old model.old → IfErr result IsNoVerdict }
    ensures ok { OnOk result (AreMatched F.words forest.old model.old
        → AreMatched F.words forest.new model.new) }
{
    // For the proof: forests that are alike answer alike.
    trees_decide_answers();
    let found = found(forest.stat(collection, path))?;
    let expected = expected(model.stat(collection, path))?;
    verdict(is_same_stat(found, expected), model.calls())
}

// The same in the same order.
fn are_same<T: Eq>(found: &[T], expected: &[T]) -> bool
    ensures { expected.now ≡ found.now → IsTrue result }
{
    found == expected
}

fn is_same_list<T: Eq>(
    found: &Result<Vec<T>, TreeFault>,
    expected: &Result<Vec<T>, TreeFault>,
) -> bool
    ensures { result_map_both (λ all. all.items) (λ fault. fault) expected.now
        ≡ result_map_both (λ all. all.items) (λ fault. fault) found.now
        → IsTrue result }
{
    match (found, expected) {
        (Ok(found), Ok(expected)) => are_same(found, expected),
        (Err(found), Err(expected)) => found == expected,
        _ => false,
    }
}

/// The listing of the folder.
pub(crate) fn try_list<F: Forest>(
    alloc: Global,
    forest: &mut F,
    model: &mut MemForest,
    collection: u32,
    path: &Path,
    after: Option<&Name>,
    limit: u32,
) -> Result<(), SuiteFault>
    requires few { collection < 2 }
    requires many { (1 < F.words.collections forest.old) × (1 < length model.old.trees) }
    ensures same { IsSameForest F.words forest.old forest.new
        × (length model.new.trees ≡ length model.old.trees) }
    ensures cause { IsErrOf result SuiteFault.ForestFault
        → HasFailed F.words forest.old forest.new }
    ensures fault { AreMatched F.words forest.old model.old → IfErr result IsNoVerdict }
    ensures ok { OnOk result (AreMatched F.words forest.old model.old
        → AreMatched F.words forest.new model.new) }
{
    // For the proof: forests that are alike answer alike.
    trees_decide_answers();
    let found = found(forest.list(alloc, collection, path, after, limit))?;
    let expected = expected(model.list(alloc, collection, path, after, limit))?;
    verdict(is_same_list(&found, &expected), model.calls())
}

// The bytes of a file from a place on, and so many at most.
fn read_bytes<F: Forest>(
    alloc: Global,
    forest: &mut F,
    collection: u32,
    path: &Path,
    at: u64,
    room: usize,
) -> Result<Vec<u8>, TreeFault>
    requires { collection < F.words.collections forest.old }
    ensures same { IsSameForest F.words forest.old forest.new }
    ensures cause { IsErrOf result TreeFault.Fault → HasFailed F.words forest.old forest.new }
    ensures told { OnTold F.words forest.old forest.new (ReadAnswer collection path.now at room
        (result_map_both (λ bytes. bytes.items) (λ fault. fault) result)) }
{
    let mut bytes = vec![in alloc; 0; room]?;
    let n = forest.read(collection, path, at, &mut bytes)?;
    bytes.truncate(n);
    Ok(bytes)
}

/// What a read of so many bytes from a place on gives.
pub(crate) fn try_read<F: Forest>(
    alloc: Global,
    forest: &mut F,
    model: &mut MemForest,
    collection: u32,
    path: &Path,
    at: u64,
    room: usize,
) -> Result<(), SuiteFault>
    requires few { collection < 2 }
    requires many { (1 < F.words.collections forest.old) × (1 < length model.old.trees) }
    ensures same { IsSameForest F.words forest.old forest.new
        × (length model.new.trees ≡ length model.old.trees) }
    ensures cause { IsErrOf result SuiteFault.ForestFault
        → HasFailed F.words forest.old forest.new }
    ensures fault { AreMatched F.words forest.old model.old → IfErr result IsNoVerdict }
    ensures ok { OnOk result (AreMatched F.words forest.old model.old
        → AreMatched F.words forest.new model.new) }
{
    // For the proof: forests that are alike answer alike.
    trees_decide_answers();
    let found = found(read_bytes(alloc, forest, collection, path, at, room))?;
    let expected = expected(read_bytes(alloc, model, collection, path, at, room))?;
    verdict(is_same_list(&found, &expected), model.calls())
}

fn is_same_done(found: Result<(), TreeFault>, expected: Result<(), TreeFault>) -> bool
    ensures { expected ≡ found → IsTrue result }
{
    found == expected
}

/// A call that writes.
pub(crate) fn try_change<F: Forest>(
    alloc: Global,
    forest: &mut F,
    model: &mut MemForest,
    collection: u32,
    change: &Change,
) -> Result<(), SuiteFault>
    requires few { collection < 2 }
    requires many { (1 < F.words.collections forest.old) × (1 < length model.old.trees) }
    ensures same { IsSameForest F.words forest.old forest.new
        × (length model.new.trees ≡ length model.old.trees) }
    ensures cause { IsErrOf result SuiteFault.ForestFault
        → HasFailed F.words forest.old forest.new }
    ensures fault { AreMatched F.words forest.old model.old → IfErr result IsNoVerdict }
    ensures ok { OnOk result (AreMatched F.words forest.old model.old
        → AreMatched F.words forest.new model.new) }
{
    // For the proof: forests that are alike answer alike.
    trees_decide_answers();
    let found = found(make_change(alloc, forest, collection, change))?;
    let expected = expected(make_change(alloc, model, collection, change))?;
    verdict(is_same_done(found, expected), model.calls())
}
