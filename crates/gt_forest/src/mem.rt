// The forest in memory: it counts its calls, and fails where it is told to.
ghost use Rattle.std.proofs.Common.{refl};
ghost use Rattle.std.specs.Option.{option_copied};
ghost use Rattle.std.specs.Prelude.{◌≡◌, ◌≤◌, ◌<◌, ◌==◌, ◌^◌, ◌↔◌, Contains, IfErr, IfOk, IsErr, IsTrue, OnOk, length, replicate, take, true, ℕ};
ghost use Rattle.std.specs.Result.{result_map_both};
ghost use Rattle.gt_causes.specs.Counts.{after_answer, after_fault, counted};
ghost use Rattle.gt_forest.specs.Answers.{IsBounded, may_answer, may_answer_emptying, may_answer_opening, may_answer_stat, may_answer_taking};
ghost use Rattle.gt_forest.specs.Calls.{ListAnswer, MakeDirAnswer, ReadAnswer, RemoveDirAnswer, RemoveFileAnswer, StageAppendAnswer, StageDropAnswer, StageOpenAnswer, StagePlaceAnswer, StatAnswer};
ghost use Rattle.gt_forest.specs.Listing.{IsInOrder};
ghost use Rattle.gt_forest.specs.MemState.{IsCall, IsMade, IsStored, SameNodes, forest_trees, is_denied as denies};
ghost use Rattle.gt_forest.specs.Rows.{fresh_rows};
ghost use Rattle.gt_forest.specs.Tree.{empty_tree, stage_at};

use crate::fault::TreeFault;
use crate::forest::Forest;
use crate::tree::MemTree;
use gt_causes::{CallCounts, CallList};
use gt_paths::{Name, Path};
use gt_types::{Entry, Stat};
use gt_values::Moment;
use std::alloc::{AllocError, Global};
use std::marker::Model;

/// A forest in memory, which is told. A call of it fails exactly where its number, counted from 1, is listed, and then
/// changes nothing.
///
/// Appends have numbers of their own, counted from 1 as they are called, whatever they answer. Those that are listed store
/// their first byte inverted, and the forest is faithful where none is listed. What stands at a path is found in the
/// logarithm of the number of folders and of the folder's entries, and a listing looks at what it gives and one entry more.
#[derive(Drop)]
pub struct MemForest {
    trees: Vec<MemTree>,
    denied: Vec<(u32, Path)>,
    corrupt: CallList,
    counts: CallCounts,
    appends: u64,
}

impl Model for MemForest {
    ghost use Rattle.gt_forest.specs.MemState.{MemState};
    ghost use Rattle.std.specs.Prelude.{◌<◌, ◌^◌, length};

    ghost Value = { MemState };

    ghost view = { λ m. record {
      trees = m.trees.items;
      denied = m.denied.items;
      corrupt = m.corrupt;
      counts = m.counts;
      appends = m.appends;
    } };

    ghost invariant = { λ m. length m.trees.items < 2 ^ 32 };
}

impl MemForest {
    /// So many collections with empty roots of the time 0. All below the `denied` paths, each with the number of its
    /// collection, is denied. The calls that `fails` lists fail, and the appends that `corrupt` lists store a wrong byte.
    pub fn new(
        alloc: Global,
        count: u32,
        denied: Vec<(u32, Path)>,
        fails: Vec<u64>,
        corrupt: Vec<u64>,
    ) -> Result<MemForest, AllocError>
        ensures ok { IfOk result
            (λ forest. IsMade count denied.items fails.items corrupt.items forest) }
        ensures faithful { IfOk result
            (λ forest. (forest_trees forest).is_faithful ≡ (length corrupt.items == 0)) }
        ensures empty { IfOk result (λ forest. (collection : ℕ) → collection < count
            → (forest_trees forest).tree collection ≡ empty_tree) }
    {
        Ok(MemForest {
            trees: fresh_trees(alloc, count)?,
            denied,
            corrupt: CallList::new(corrupt),
            counts: CallCounts::new(fails),
            appends: 0,
        })
    }
}

// So many trees with empty roots.
fn fresh_trees(alloc: Global, count: u32) -> Result<Vec<MemTree>, AllocError>
    ensures { IfOk result (λ trees. trees.items ≡ replicate count fresh_rows) }
{
    let mut trees = Vec::new(alloc);
    for _i in 0..count {
        trees.push(MemTree::new(alloc)?)?;
    }
    Ok(trees)
}

// Counts a call, which fails exactly where it is listed.
fn count_call(counts: &mut CallCounts) -> Result<(), TreeFault>
    ensures ok { OnOk result (counts.new ≡ after_answer counts.old) }
    ensures err { IsErr result → counts.new ≡ after_fault counts.old }
    ensures fault { IfErr result (λ fault. fault ≡ TreeFault.Fault) }
    ensures cause { IsErr result ↔ Contains counts.old.fails (counted counts.old.calls) }
    ensures same { (counts.old.faults ≤ counts.new.faults) × (counts.old.calls ≤ counts.new.calls) }
{
    // For the proof: both are numbers of 64 bits.
    let _faults = counts.faults();
    let _calls = counts.calls();
    counts.count_call()?;
    Ok(())
}

// Whether the path is under one of these of its collection.
fn is_denied(denied: &[(u32, Path)], collection: u32, path: &Path) -> bool
    ensures { result ≡ denies denied.now collection path.now }
{
    denied
        .iter()
        .any(|d| d.0 == collection && path.is_under(&d.1))
}

impl Forest for MemForest {
    ghost words = { record {
      faults = λ m. m.counts.faults;
      calls = λ m. m.counts.calls;
      collections = λ m. length m.trees;
      told = λ m. true;
      trees = forest_trees;
      may_leave = λ m. SameNodes (forest_trees m);
      loan = λ m. 0;
    } };

    ghost laws = { record { stands_now = λ m told collection path. refl } };

    fn faults(&self) -> u64 {
        self.counts.faults()
    }

    fn calls(&self) -> u64 {
        self.counts.calls()
    }

    fn collections(&self) -> u32 {
        self.trees.len() as u32
    }

    fn stat(&mut self, collection: u32, path: &Path) -> Result<Stat, TreeFault>
        requires { collection < length self.old.trees }
        ensures whole { IsCall self.old self.new self.old.appends result }
        ensures fault { IfErr result (λ fault. IsTrue (may_answer_stat fault)) }
        ensures room { IfOk result (λ stat. IsBounded stat) }
        ensures told { StatAnswer collection path.now result
            (forest_trees self.old) (forest_trees self.new) }
    {
        count_call(&mut self.counts)?;
        let denied = is_denied(&self.denied, collection, path);
        self.trees[collection as usize].stat(denied, path)
    }

    fn list(
        &mut self,
        alloc: Global,
        collection: u32,
        path: &Path,
        after: Option<&Name>,
        limit: u32,
    ) -> Result<Vec<Entry>, TreeFault>
        requires { collection < length self.old.trees }
        ensures whole { IsCall self.old self.new self.old.appends result }
        ensures fault { IfErr result (λ fault. IsTrue (may_answer_taking fault)) }
        ensures ok { IfOk result
            (λ entries. IsInOrder (option_copied after.entry) limit entries.items) }
        ensures told { ListAnswer collection path.now (option_copied after.entry) limit
            (result_map_both (λ entries. entries.items) (λ fault. fault) result)
            (forest_trees self.old) (forest_trees self.new) }
    {
        count_call(&mut self.counts)?;
        let denied = is_denied(&self.denied, collection, path);
        self.trees[collection as usize].list(alloc, denied, path, after, limit)
    }

    fn read(
        &mut self,
        collection: u32,
        path: &Path,
        at: u64,
        into: &mut [u8],
    ) -> Result<usize, TreeFault>
        requires { collection < length self.old.trees }
        ensures whole { IsCall self.old self.new self.old.appends result }
        ensures fault { IfErr result (λ fault. IsTrue (may_answer fault)) }
        ensures room { IfOk result (λ n. (n ≤ length into.old) × (n < 2 ^ 64)) }
        ensures told { ReadAnswer collection path.now at (length into.old)
            (result_map_both (λ n. take n into.new) (λ fault. fault) result)
            (forest_trees self.old) (forest_trees self.new) }
    {
        count_call(&mut self.counts)?;
        let denied = is_denied(&self.denied, collection, path);
        self.trees[collection as usize].read(denied, path, at, into)
    }

    fn stage_open(&mut self, alloc: Global, collection: u32, key: u64) -> Result<(), TreeFault>
        requires { collection < length self.old.trees }
        ensures whole { IsCall self.old self.new self.old.appends result }
        ensures fault { IfErr result (λ fault. IsTrue (may_answer_opening fault)) }
        ensures told { StageOpenAnswer collection key result
            (forest_trees self.old) (forest_trees self.new) }
    {
        count_call(&mut self.counts)?;
        self.trees[collection as usize].open(alloc, key)
    }

    fn stage_append(
        &mut self,
        _alloc: Global,
        collection: u32,
        key: u64,
        bytes: &[u8],
    ) -> Result<(), TreeFault>
        requires { collection < length self.old.trees }
        ensures whole { IsCall self.old self.new (counted self.old.appends) result }
        ensures fault { IfErr result (λ fault. IsTrue (may_answer_taking fault)) }
        ensures stored { OnOk result (IsStored self.old bytes.now
            (stage_at (forest_trees self.old) collection key)
            (stage_at (forest_trees self.new) collection key)) }
        ensures told { StageAppendAnswer collection key bytes.now result
            (forest_trees self.old) (forest_trees self.new) }
    {
        self.appends = self.appends.saturating_add(1);
        count_call(&mut self.counts)?;
        let is_corrupt = self.corrupt.has(self.appends);
        self.trees[collection as usize].append(key, bytes, is_corrupt)
    }

    fn stage_place(
        &mut self,
        alloc: Global,
        collection: u32,
        key: u64,
        path: &Path,
        mtime: Moment,
    ) -> Result<(), TreeFault>
        requires { collection < length self.old.trees }
        ensures whole { IsCall self.old self.new self.old.appends result }
        ensures fault { IfErr result (λ fault. IsTrue (may_answer_taking fault)) }
        ensures told { StagePlaceAnswer collection key path.now mtime result
            (forest_trees self.old) (forest_trees self.new) }
    {
        count_call(&mut self.counts)?;
        let denied = is_denied(&self.denied, collection, path);
        self.trees[collection as usize].place(alloc, denied, key, path, mtime)
    }

    fn stage_drop(&mut self, collection: u32, key: u64) -> Result<(), TreeFault>
        requires { collection < length self.old.trees }
        ensures whole { IsCall self.old self.new self.old.appends result }
        ensures fault { IfErr result (λ fault. IsTrue (may_answer fault)) }
        ensures told { StageDropAnswer collection key result
            (forest_trees self.old) (forest_trees self.new) }
    {
        count_call(&mut self.counts)?;
        self.trees[collection as usize].drop_stage(key)
    }

    fn make_dir(&mut self, alloc: Global, collection: u32, path: &Path) -> Result<(), TreeFault>
        requires { collection < length self.old.trees }
        ensures whole { IsCall self.old self.new self.old.appends result }
        ensures fault { IfErr result (λ fault. IsTrue (may_answer_taking fault)) }
        ensures told { MakeDirAnswer collection path.now result
            (forest_trees self.old) (forest_trees self.new) }
    {
        count_call(&mut self.counts)?;
        let denied = is_denied(&self.denied, collection, path);
        self.trees[collection as usize].make(alloc, denied, path)
    }

    fn remove_file(&mut self, collection: u32, path: &Path) -> Result<(), TreeFault>
        requires { collection < length self.old.trees }
        ensures whole { IsCall self.old self.new self.old.appends result }
        ensures fault { IfErr result (λ fault. IsTrue (may_answer fault)) }
        ensures told { RemoveFileAnswer collection path.now result
            (forest_trees self.old) (forest_trees self.new) }
    {
        count_call(&mut self.counts)?;
        let denied = is_denied(&self.denied, collection, path);
        self.trees[collection as usize].remove_file(denied, path)
    }

    fn remove_dir(&mut self, collection: u32, path: &Path) -> Result<(), TreeFault>
        requires { collection < length self.old.trees }
        ensures whole { IsCall self.old self.new self.old.appends result }
        ensures fault { IfErr result (λ fault. IsTrue (may_answer_emptying fault)) }
        ensures told { RemoveDirAnswer collection path.now result
            (forest_trees self.old) (forest_trees self.new) }
    {
        count_call(&mut self.counts)?;
        let denied = is_denied(&self.denied, collection, path);
        self.trees[collection as usize].remove_dir(denied, path)
    }
}
