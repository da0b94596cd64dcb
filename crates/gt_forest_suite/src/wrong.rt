// Forests over a good one that are wrong in one call.
ghost use Rattle.std.specs.Prelude.{◌≤◌, length};
ghost use Rattle.gt_forest.specs.Words.{untold, untold_laws};

use gt_forest::{Forest, TreeFault};
use gt_paths::{Name, Path};
use gt_types::{Entry, Kind, Stat};
use gt_values::Moment;
use std::alloc::Global;

/// What is wrong.
#[derive(Clone, Copy, Debug, PartialEq, Eq)]
pub(crate) enum Wrong {
    Nothing,
    /// Folders are told as files.
    Kind,
    /// Sizes are one more.
    Length,
    /// Files have the time 0.
    Time,
    /// Reads begin one byte later.
    Place,
    /// Behind a name nothing is listed.
    After,
    /// One entry less is listed.
    Limit,
    /// All staging files have one key.
    Key,
    /// All collections are the first.
    Collection,
    /// Placing leaves what was there, and drops the staging file.
    OlderFile,
    /// Appends stop at 65,535 bytes.
    LongAppend,
}

#[derive(Drop)]
pub(crate) struct WrongForest<F> {
    pub inner: F,
    pub wrong: Wrong,
}

impl<F: Forest> WrongForest<F> {
    fn side(&self, collection: u32) -> u32
        ensures { result ≤ collection }
    {
        if self.wrong == Wrong::Collection {
            0
        } else {
            collection
        }
    }

    fn limit(&self, is_after: bool, limit: u32) -> u32
        ensures { result ≤ limit }
    {
        match self.wrong {
            Wrong::Limit => limit.saturating_sub(1),
            Wrong::After if is_after => 0,
            _ => limit,
        }
    }

    fn stored(&self, bytes: &[u8]) -> usize
        ensures { result ≤ length bytes.now }
    {
        match self.wrong {
            Wrong::LongAppend => bytes.len().min(65_535),
            _ => bytes.len(),
        }
    }

    fn key(&self, key: u64) -> u64 {
        if self.wrong == Wrong::Key { 7 } else { key }
    }
}

impl<F: Forest> Forest for WrongForest<F> {
    ghost words = { untold (λ d. F.words.faults d.inner) (λ d. F.words.calls d.inner)
        (λ d. F.words.collections d.inner) (λ d. F.words.loan d.inner) };

    ghost laws = { untold_laws (λ d. F.words.faults d.inner) (λ d. F.words.calls d.inner)
        (λ d. F.words.collections d.inner) (λ d. F.words.loan d.inner) };

    fn faults(&self) -> u64 {
        self.inner.faults()
    }

    fn calls(&self) -> u64 {
        self.inner.calls()
    }

    fn collections(&self) -> u32 {
        self.inner.collections()
    }

    fn stat(&mut self, collection: u32, path: &Path) -> Result<Stat, TreeFault> {
        let collection = self.side(collection);
        let stat = self.inner.stat(collection, path)?;
        let Stat { kind, size, mtime } = stat;
        match self.wrong {
            Wrong::Kind => Ok(Stat {
                kind: Kind::File,
                size,
                mtime,
            }),
            Wrong::Length => Ok(Stat {
                kind,
                size: size.saturating_add(1),
                mtime,
            }),
            _ => Ok(stat),
        }
    }

    fn list(
        &mut self,
        alloc: Global,
        collection: u32,
        path: &Path,
        after: Option<&Name>,
        limit: u32,
    ) -> Result<Vec<Entry>, TreeFault> {
        let collection = self.side(collection);
        let limit = self.limit(after.is_some(), limit);
        self.inner.list(alloc, collection, path, after, limit)
    }

    fn read(
        &mut self,
        collection: u32,
        path: &Path,
        at: u64,
        into: &mut [u8],
    ) -> Result<usize, TreeFault> {
        let collection = self.side(collection);
        let at = if self.wrong == Wrong::Place {
            at.saturating_add(1)
        } else {
            at
        };
        self.inner.read(collection, path, at, into)
    }

    fn stage_open(&mut self, alloc: Global, collection: u32, key: u64) -> Result<(), TreeFault> {
        let collection = self.side(collection);
        let key = self.key(key);
        self.inner.stage_open(alloc, collection, key)
    }

    fn stage_append(
        &mut self,
        alloc: Global,
        collection: u32,
        key: u64,
        bytes: &[u8],
    ) -> Result<(), TreeFault> {
        let collection = self.side(collection);
        let key = self.key(key);
        let stored = self.stored(bytes);
        self.inner
            .stage_append(alloc, collection, key, &bytes[..stored])
    }

    fn stage_place(
        &mut self,
        alloc: Global,
        collection: u32,
        key: u64,
        path: &Path,
        mtime: Moment,
    ) -> Result<(), TreeFault> {
        let collection = self.side(collection);
        let key = self.key(key);
        let mtime = if self.wrong == Wrong::Time {
            Moment::zero()
        } else {
            mtime
        };
        if self.wrong == Wrong::OlderFile {
            self.inner.stage_drop(collection, key)?;
            return Ok(());
        }
        self.inner.stage_place(alloc, collection, key, path, mtime)
    }

    fn stage_drop(&mut self, collection: u32, key: u64) -> Result<(), TreeFault> {
        let collection = self.side(collection);
        let key = self.key(key);
        self.inner.stage_drop(collection, key)
    }

    fn make_dir(&mut self, alloc: Global, collection: u32, path: &Path) -> Result<(), TreeFault> {
        let collection = self.side(collection);
        self.inner.make_dir(alloc, collection, path)
    }

    fn remove_file(&mut self, collection: u32, path: &Path) -> Result<(), TreeFault> {
        let collection = self.side(collection);
        self.inner.remove_file(collection, path)
    }

    fn remove_dir(&mut self, collection: u32, path: &Path) -> Result<(), TreeFault> {
        let collection = self.side(collection);
        self.inner.remove_dir(collection, path)
    }
}
