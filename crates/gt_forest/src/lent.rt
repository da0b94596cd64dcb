// A lent forest: what is said of it is said of the forest that it refers to.
ghost use Rattle.gt_forest.specs.Words.{lent, lent_laws};

use crate::fault::TreeFault;
use crate::forest::Forest;
use gt_paths::{Name, Path};
use gt_types::{Entry, Stat};
use gt_values::Moment;
use std::alloc::Global;

impl<F: Forest> Forest for &mut F {
    ghost words = { lent (λ f. f.now) (λ f. f.ghost_name) F.words };

    ghost laws = { lent_laws (λ f. f.now) (λ f. f.ghost_name) F.words F.laws };

    fn faults(&self) -> u64 {
        Forest::faults(&**self)
    }

    fn calls(&self) -> u64 {
        Forest::calls(&**self)
    }

    fn collections(&self) -> u32 {
        Forest::collections(&**self)
    }

    fn stat(&mut self, collection: u32, path: &Path) -> Result<Stat, TreeFault> {
        Forest::stat(&mut **self, collection, path)
    }

    fn list(
        &mut self,
        alloc: Global,
        collection: u32,
        path: &Path,
        after: Option<&Name>,
        limit: u32,
    ) -> Result<Vec<Entry>, TreeFault> {
        Forest::list(&mut **self, alloc, collection, path, after, limit)
    }

    fn read(
        &mut self,
        collection: u32,
        path: &Path,
        at: u64,
        into: &mut [u8],
    ) -> Result<usize, TreeFault> {
        Forest::read(&mut **self, collection, path, at, into)
    }

    fn stage_open(&mut self, alloc: Global, collection: u32, key: u64) -> Result<(), TreeFault> {
        Forest::stage_open(&mut **self, alloc, collection, key)
    }

    fn stage_append(
        &mut self,
        alloc: Global,
        collection: u32,
        key: u64,
        bytes: &[u8],
    ) -> Result<(), TreeFault> {
        Forest::stage_append(&mut **self, alloc, collection, key, bytes)
    }

    fn stage_place(
        &mut self,
        alloc: Global,
        collection: u32,
        key: u64,
        path: &Path,
        mtime: Moment,
    ) -> Result<(), TreeFault> {
        Forest::stage_place(&mut **self, alloc, collection, key, path, mtime)
    }

    fn stage_drop(&mut self, collection: u32, key: u64) -> Result<(), TreeFault> {
        Forest::stage_drop(&mut **self, collection, key)
    }

    fn make_dir(&mut self, alloc: Global, collection: u32, path: &Path) -> Result<(), TreeFault> {
        Forest::make_dir(&mut **self, alloc, collection, path)
    }

    fn remove_file(&mut self, collection: u32, path: &Path) -> Result<(), TreeFault> {
        Forest::remove_file(&mut **self, collection, path)
    }

    fn remove_dir(&mut self, collection: u32, path: &Path) -> Result<(), TreeFault> {
        Forest::remove_dir(&mut **self, collection, path)
    }
}
