// The table of calls, asked of the forest that is tried and of one in memory.
ghost use Rattle.std.specs.Prelude.{◌<◌, ◌≡◌, IfErr, IsErrOf, IsTrue, OnOk, length};
ghost use Rattle.gt_forest.specs.Words.{HasFailed, IsSameForest};
ghost use Rattle.gt_forest_suite.specs.Suite.{AreMatched, IsFresh, IsNoVerdict};

use crate::change::Change;
use crate::steps::{Call, STEPS, Side};
use crate::suite_fault::SuiteFault;
use crate::trial::{try_change, try_list, try_read, try_stat};
use gt_forest::{Forest, MemForest};
use gt_paths::{Name, Path};
use gt_values::{Bytes, Moment};
use std::alloc::{AllocError, Global};

fn number(side: Side) -> u32
    ensures { result < 2 }
{
    match side {
        Side::First => 0,
        Side::Second => 1,
    }
}

// The path of a text of the table. Each is one, so that memory alone can be wanting.
fn path_of(alloc: Global, text: &str) -> Result<Path, SuiteFault>
    ensures { IfErr result (λ fault. fault ≡ SuiteFault.OutOfMemory) }
{
    match Path::read(alloc, text, &Path::root(alloc)) {
        Ok(path) => Ok(path),
        Err(_) => Err(SuiteFault::OutOfMemory),
    }
}

// The name of a text of the table, in the same way.
fn name_of(alloc: Global, text: Option<&str>) -> Result<Option<Name>, SuiteFault>
    ensures { IfErr result (λ fault. fault ≡ SuiteFault.OutOfMemory) }
{
    match text {
        None => Ok(None),
        Some(text) => match Name::read(alloc, text) {
            Ok(name) => Ok(Some(name)),
            Err(_) => Err(SuiteFault::OutOfMemory),
        },
    }
}

fn repeated(alloc: Global, text: &str, times: usize) -> Result<Vec<u8>, AllocError> {
    let mut bytes = Vec::new(alloc);
    for _i in 0..times {
        bytes.extend_from_slice(text.as_bytes())?;
    }
    Ok(bytes)
}

fn moment(seconds: u64) -> Moment {
    Moment::of(seconds).unwrap_or(Moment::zero())
}

// The change that a call of the table makes, if it makes one.
fn change_of(alloc: Global, call: Call) -> Result<Option<Change>, SuiteFault>
    ensures { IfErr result (λ fault. fault ≡ SuiteFault.OutOfMemory) }
{
    let change = match call {
        Call::Open(key) => Change::Open { key },
        Call::Append(key, text, times) => {
            let bytes = Bytes::from_vec(repeated(alloc, text, times)?);
            Change::Append { key, bytes }
        }
        Call::Place(key, path, seconds) => {
            let path = path_of(alloc, path)?;
            let mtime = moment(seconds);
            Change::Place { key, path, mtime }
        }
        Call::Discard(key) => Change::Discard { key },
        Call::Make(path) => Change::Make {
            path: path_of(alloc, path)?,
        },
        Call::RemoveFile(path) => Change::RemoveFile {
            path: path_of(alloc, path)?,
        },
        Call::RemoveDir(path) => Change::RemoveDir {
            path: path_of(alloc, path)?,
        },
        _ => return Ok(None),
    };
    Ok(Some(change))
}

// A call of the table that reads; others are passed over.
fn try_reading<F: Forest>(
    alloc: Global,
    forest: &mut F,
    model: &mut MemForest,
    collection: u32,
    call: Call,
) -> Result<(), SuiteFault>
    requires few { collection < 2 }
    requires many { (1 < F.words.collections forest.old) × (1 < length model.old.trees) }
    ensures same { IsSameForest F.words forest.old forest.new
        × (length model.new.trees ≡ length model.old.trees) }
    ensures cause { IsErrOf result SuiteFault.ForestFault
        → HasFailed F.words forest.old forest.new }
    ensures fault { AreMatched F.words forest.old model.old → IfErr result IsNoVerdict }
    ensures ok { OnOk result (AreMatched F.words forest.old model.old
        → AreMatched F.words forest.new model.new) }
{
    match call {
        Call::Stat(path) => try_stat(forest, model, collection, &path_of(alloc, path)?),
        Call::List(path, after, limit) => {
            let path = path_of(alloc, path)?;
            let after = name_of(alloc, after)?;
            try_list(
                alloc,
                forest,
                model,
                collection,
                &path,
                after.as_ref(),
                limit,
            )
        }
        Call::Read(path, at, room) => {
            let path = path_of(alloc, path)?;
            try_read(alloc, forest, model, collection, &path, at, room)
        }
        _ => Ok(()),
    }
}

// One call of the table.
fn try_call<F: Forest>(
    alloc: Global,
    forest: &mut F,
    model: &mut MemForest,
    side: Side,
    call: Call,
) -> Result<(), SuiteFault>
    requires { (1 < F.words.collections forest.old) × (1 < length model.old.trees) }
    ensures same { IsSameForest F.words forest.old forest.new
        × (length model.new.trees ≡ length model.old.trees) }
    ensures cause { IsErrOf result SuiteFault.ForestFault
        → HasFailed F.words forest.old forest.new }
    ensures fault { AreMatched F.words forest.old model.old → IfErr result IsNoVerdict }
    ensures ok { OnOk result (AreMatched F.words forest.old model.old
        → AreMatched F.words forest.new model.new) }
{
    let collection = number(side);
    match change_of(alloc, call)? {
        Some(change) => try_change(alloc, forest, model, collection, &change),
        None => try_reading(alloc, forest, model, collection, call),
    }
}

// All these calls, until one is answered otherwise.
fn try_all<F: Forest>(
    alloc: Global,
    forest: &mut F,
    model: &mut MemForest,
    steps: &[(Side, Call)],
) -> Result<(), SuiteFault>
    requires { (1 < F.words.collections forest.old) × (1 < length model.old.trees) }
    ensures same { IsSameForest F.words forest.old forest.new }
    ensures cause { IsErrOf result SuiteFault.ForestFault
        → HasFailed F.words forest.old forest.new }
    ensures fault { AreMatched F.words forest.old model.old → IfErr result IsNoVerdict }
{
    for (side, call) in steps {
        try_call(alloc, forest, model, *side, *call)?;
    }
    Ok(())
}

/// Asks a forest and one in memory the same calls, about a hundred, of their first two collections, which have to be
/// empty with nothing denied, and are left so: refusals, kinds, sizes, times and bytes are compared, and names in their
/// order. A forest that is told and stores what it is given is never found wrong. Where a call fails or memory is
/// wanting, nothing more is tried.
pub fn forest_suite<F: Forest>(alloc: Global, forest: &mut F) -> Result<(), SuiteFault>
    requires { 1 < F.words.collections forest.old }
    ensures same { IsSameForest F.words forest.old forest.new }
    ensures cause { IsErrOf result SuiteFault.ForestFault
        → HasFailed F.words forest.old forest.new }
    ensures fault { IsTrue (F.words.told forest.old) → IsFresh (F.words.trees forest.old)
        → IfErr result IsNoVerdict }
{
    let nothing = Vec::new(alloc);
    let mut model = MemForest::new(alloc, 2, nothing, Vec::new(alloc), Vec::new(alloc))?;
    try_all(alloc, forest, &mut model, &STEPS)
}
