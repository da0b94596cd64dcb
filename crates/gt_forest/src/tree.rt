// One tree in memory: each call on it, where it is known whether the path is denied.
ghost use Rattle.std.specs.Option.{option_copied, option_map};
ghost use Rattle.std.specs.Prelude.{◌≡◌, ◌≤◌, ◌<◌, ◌^◌, ◌++◌, ◌&&◌, IfErr, IfOk, IsTrue, None, OnOk, Some, is_none, is_some, length, not, take, true};
ghost use Rattle.std.specs.Result.{result_map_both};
ghost use Rattle.gt_forest.specs.Answers.{IsBounded, is_failure, may_answer, may_answer_emptying, may_answer_opening, may_answer_stat, may_answer_taking};
ghost use Rattle.gt_forest.specs.Calls.{Appends, Drops, Gives, Lists, Makes, Opens, Places, RemovesDir, RemovesFile, Stats};
ghost use Rattle.gt_forest.specs.Listing.{IsInOrder};
ghost use Rattle.gt_forest.specs.Rows.{KeepsOthers, fresh_rows, stored, tree_of};
ghost use Rattle.gt_forest.specs.Tree as spec;

use crate::fault::TreeFault;
use crate::folders::{Folders, contents, entry, is_empty, take_entry};
use crate::look::{copy_from, list_from};
use crate::node::Node;
use crate::place::{make_folder, place_stage, remove_folder};
use crate::stages::{Stages, append_stage, has_stage, open_stage, take_stage};
use gt_paths::{Name, Path};
use gt_types::{Entry, Stat};
use gt_values::Moment;
use std::alloc::{AllocError, Global};
use std::collections::BTreeMap;
use std::marker::Model;

/// A tree and its staging files. Contracts see their rows.
#[derive(Drop)]
pub(crate) struct MemTree {
    root: Node,
    folders: Folders,
    stages: Stages,
}

impl Model for MemTree {
    ghost use Rattle.gt_forest.specs.Rows.{IsWhole, TreeRows, folder_rows, stage_rows};

    ghost Value = { TreeRows };

    ghost view = { λ t. record {
      root = t.root;
      folders = folder_rows t.folders;
      stages = stage_rows t.stages;
    } };

    ghost invariant = { λ t. IsWhole t.root (folder_rows t.folders) };
}

impl MemTree {
    /// A tree with an empty root of the time 0.
    pub(crate) fn new(alloc: Global) -> Result<MemTree, AllocError>
        ensures { IfOk result (λ tree. tree ≡ fresh_rows) }
    {
        let mut folders = BTreeMap::new(alloc);
        folders.insert(Vec::new(alloc), BTreeMap::new(alloc))?;
        let mtime = Moment::zero();
        Ok(MemTree {
            root: Node::Folder { mtime },
            folders,
            stages: BTreeMap::new(alloc),
        })
    }

    /// What stands at the path.
    fn node(&self, path: &Path) -> Option<&Node>
        ensures { option_copied result ≡ (tree_of self.now).nodes path.now }
    {
        match path.as_slice().split_last() {
            Some((name, folder)) => entry(&self.folders, folder, name),
            None => Some(&self.root),
        }
    }

    /// Whether the folder that the path is in is there.
    fn has_parent(&self, path: &Path) -> bool
        ensures { result ≡ spec.has_parent (tree_of self.now) path.now }
    {
        match path.as_slice().split_last() {
            Some((_, folder)) => contents(&self.folders, folder).is_some(),
            None => true,
        }
    }

    /// Why a path is no folder that is there.
    fn not_folder(&self, path: &Path) -> TreeFault
        ensures absent { is_none ((tree_of self.now).nodes path.now) ≡ true
            → result ≡ TreeFault.NotFound }
        ensures file { is_some ((tree_of self.now).nodes path.now) ≡ true
            → result ≡ TreeFault.WrongKind }
    {
        match self.node(path) {
            Some(_) => TreeFault::WrongKind,
            None => TreeFault::NotFound,
        }
    }

    /// What stands at the path: its kind, its size and its time.
    pub(crate) fn stat(&self, denied: bool, path: &Path) -> Result<Stat, TreeFault>
        ensures answer { Stats denied (tree_of self.now) path.now result }
        ensures room { IfOk result (λ stat. IsBounded stat) }
        ensures fault { IfErr result
            (λ fault. IsTrue (may_answer_stat fault && not (is_failure fault))) }
    {
        if denied {
            return Err(TreeFault::Denied);
        }
        match self.node(path) {
            Some(node) => Ok(node.stat()),
            None => Err(TreeFault::NotFound),
        }
    }

    /// The first entries of a folder after a name.
    pub(crate) fn list(
        &self,
        alloc: Global,
        denied: bool,
        path: &Path,
        after: Option<&Name>,
        limit: u32,
    ) -> Result<Vec<Entry>, TreeFault>
        ensures answer { Lists denied (tree_of self.now) path.now (option_copied after.entry) limit
            (result_map_both (λ entries. entries.items) (λ fault. fault) result) }
        ensures ok { IfOk result
            (λ entries. IsInOrder (option_copied after.entry) limit entries.items) }
        ensures fault { IfErr result
            (λ fault. IsTrue (may_answer_taking fault && not (is_failure fault))) }
    {
        if denied {
            return Err(TreeFault::Denied);
        }
        let Some(found) = contents(&self.folders, path.as_slice()) else {
            return Err(self.not_folder(path));
        };
        let entries = list_from(alloc, found, after, limit)?;
        Ok(entries)
    }

    /// Bytes of a file from a place on.
    pub(crate) fn read(
        &self,
        denied: bool,
        path: &Path,
        at: u64,
        into: &mut [u8],
    ) -> Result<usize, TreeFault>
        ensures answer { Gives denied (tree_of self.now) path.now at (length into.old)
            (result_map_both (λ n. take n into.new) (λ fault. fault) result) }
        ensures room { IfOk result (λ n. (n ≤ length into.old) × (n < 2 ^ 64)) }
        ensures fault { IfErr result
            (λ fault. IsTrue (may_answer fault && not (is_failure fault))) }
    {
        if denied {
            return Err(TreeFault::Denied);
        }
        match self.node(path) {
            Some(Node::File { bytes, .. }) => Ok(copy_from(bytes.as_slice(), at, into)),
            Some(Node::Folder { .. }) => Err(TreeFault::WrongKind),
            None => Err(TreeFault::NotFound),
        }
    }

    /// An empty staging file.
    pub(crate) fn open(&mut self, alloc: Global, key: u64) -> Result<(), TreeFault>
        ensures answer { Opens (tree_of self.new) key (tree_of self.new ≡ tree_of self.old) result }
        ensures others { KeepsOthers None (Some key) (tree_of self.old) (tree_of self.new) }
        ensures fault { IfErr result
            (λ fault. IsTrue (may_answer_opening fault && not (is_failure fault))) }
    {
        match open_stage(alloc, &mut self.stages, key) {
            Ok(()) => Ok(()),
            Err(_) => Err(TreeFault::OutOfMemory),
        }
    }

    /// Adds bytes to a staging file, the first of them inverted where that is asked.
    pub(crate) fn append(
        &mut self,
        key: u64,
        bytes: &[u8],
        is_corrupt: bool,
    ) -> Result<(), TreeFault>
        ensures answer { Appends (tree_of self.old) key (not is_corrupt) bytes.now
            (tree_of self.new) (tree_of self.new ≡ tree_of self.old) result }
        ensures stored { OnOk result ((tree_of self.new).stages key ≡ option_map
            (λ old. old ++ stored is_corrupt bytes.now) ((tree_of self.old).stages key)) }
        ensures others { KeepsOthers None (Some key) (tree_of self.old) (tree_of self.new) }
        ensures fault { IfErr result
            (λ fault. IsTrue (may_answer_taking fault && not (is_failure fault))) }
    {
        if !has_stage(&self.stages, key) {
            return Err(TreeFault::NotFound);
        }
        match append_stage(&mut self.stages, key, bytes, is_corrupt) {
            Ok(()) => Ok(()),
            Err(_) => Err(TreeFault::OutOfMemory),
        }
    }

    /// Places a staging file.
    pub(crate) fn place(
        &mut self,
        alloc: Global,
        denied: bool,
        key: u64,
        path: &Path,
        mtime: Moment,
    ) -> Result<(), TreeFault>
        ensures answer { Places denied (tree_of self.old) key path.now mtime (tree_of self.new)
            (tree_of self.new ≡ tree_of self.old) result }
        ensures others { KeepsOthers (Some path.now) (Some key) (tree_of self.old)
            (tree_of self.new) }
        ensures fault { IfErr result
            (λ fault. IsTrue (may_answer_taking fault && not (is_failure fault))) }
    {
        if denied {
            return Err(TreeFault::Denied);
        }
        if !self.has_parent(path) || !has_stage(&self.stages, key) {
            return Err(TreeFault::NotFound);
        }
        if let Some(Node::Folder { .. }) = self.node(path) {
            return Err(TreeFault::WrongKind);
        }
        let Some((name, folder)) = path.as_slice().split_last() else {
            return Err(TreeFault::WrongKind);
        };
        place_stage(
            alloc,
            &mut self.folders,
            &mut self.stages,
            key,
            folder,
            name,
            mtime,
        )?;
        Ok(())
    }

    /// Takes a staging file away.
    pub(crate) fn drop_stage(&mut self, key: u64) -> Result<(), TreeFault>
        ensures answer { Drops (tree_of self.old) key (tree_of self.new)
            (tree_of self.new ≡ tree_of self.old) result }
        ensures others { KeepsOthers None (Some key) (tree_of self.old) (tree_of self.new) }
        ensures fault { IfErr result
            (λ fault. IsTrue (may_answer fault && not (is_failure fault))) }
    {
        match take_stage(&mut self.stages, key) {
            Some(_) => Ok(()),
            None => Err(TreeFault::NotFound),
        }
    }

    /// Makes a folder.
    pub(crate) fn make(&mut self, alloc: Global, denied: bool, path: &Path) -> Result<(), TreeFault>
        ensures answer { Makes denied (tree_of self.old) path.now (tree_of self.new)
            (tree_of self.new ≡ tree_of self.old) result }
        ensures others { KeepsOthers (Some path.now) None (tree_of self.old) (tree_of self.new) }
        ensures fault { IfErr result
            (λ fault. IsTrue (may_answer_taking fault && not (is_failure fault))) }
    {
        if denied {
            return Err(TreeFault::Denied);
        }
        if !self.has_parent(path) {
            return Err(TreeFault::NotFound);
        }
        if self.node(path).is_some() {
            return Err(TreeFault::WrongKind);
        }
        let Some((name, folder)) = path.as_slice().split_last() else {
            return Err(TreeFault::WrongKind);
        };
        make_folder(alloc, &mut self.folders, path.as_slice(), folder, name)?;
        Ok(())
    }

    /// Removes a file.
    pub(crate) fn remove_file(&mut self, denied: bool, path: &Path) -> Result<(), TreeFault>
        ensures answer { RemovesFile denied (tree_of self.old) path.now (tree_of self.new)
            (tree_of self.new ≡ tree_of self.old) result }
        ensures others { KeepsOthers (Some path.now) None (tree_of self.old) (tree_of self.new) }
        ensures fault { IfErr result
            (λ fault. IsTrue (may_answer fault && not (is_failure fault))) }
    {
        if denied {
            return Err(TreeFault::Denied);
        }
        match self.node(path) {
            Some(Node::File { .. }) => {}
            Some(Node::Folder { .. }) => return Err(TreeFault::WrongKind),
            None => return Err(TreeFault::NotFound),
        }
        if let Some((name, folder)) = path.as_slice().split_last() {
            take_entry(&mut self.folders, folder, name);
        }
        Ok(())
    }

    /// Removes an empty folder.
    pub(crate) fn remove_dir(&mut self, denied: bool, path: &Path) -> Result<(), TreeFault>
        ensures answer { RemovesDir denied (tree_of self.old) path.now (tree_of self.new)
            (tree_of self.new ≡ tree_of self.old) result }
        ensures others { KeepsOthers (Some path.now) None (tree_of self.old) (tree_of self.new) }
        ensures fault { IfErr result
            (λ fault. IsTrue (may_answer_emptying fault && not (is_failure fault))) }
    {
        let Some((name, folder)) = path.as_slice().split_last() else {
            return Err(TreeFault::Denied);
        };
        if denied {
            return Err(TreeFault::Denied);
        }
        match is_empty(&self.folders, path.as_slice()) {
            Some(true) => {}
            Some(false) => return Err(TreeFault::NotEmpty),
            None => return Err(self.not_folder(path)),
        }
        remove_folder(&mut self.folders, path.as_slice(), folder, name);
        Ok(())
    }
}
