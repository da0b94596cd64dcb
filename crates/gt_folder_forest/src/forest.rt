// Folders of the system as a forest.
ghost use Rattle.std.specs.Prelude.{IfErr, IfOk, IsErrOf, IsTrue, length, ◌<◌, ◌^◌, ◌≡◌};
ghost use Rattle.gt_causes.specs.Causes.{Rose};
ghost use Rattle.gt_forest.specs.Answers.{may_answer_taking};
ghost use Rattle.gt_forest.specs.Words.{IsSameForest, untold_laws};
ghost use Rattle.gt_folder_forest.specs.Forest.{counts_of};

use crate::leftovers::Cleared;
use crate::spot::Spot;
use crate::trail::Trail;
use crate::trees::{Home, Trees};
use crate::trouble::{
    Trouble, answer, answer_emptying, answer_opening, answer_stat, answer_taking,
};
use gt_faults::Faults;
use gt_folders::{Folders, SystemFolders};
use gt_forest::{Forest, TreeFault};
use gt_paths::{Name, Path};
use gt_types::{Entry, Stat};
use gt_values::{Id, Moment};
use std::alloc::{AllocError, Global};
use std::marker::Model;
use std::thread::{Threads, join};

/// A forest in folders of the system: the collection of an identifier has the folder of that name under a root.
///
/// Below that folder no link is followed: a link, a device, a socket and a pipe are as if absent. What a call answers to have
/// done is on the disk. Calls that are given no allocator take no memory.
#[derive(Drop)]
pub struct DirForest<F: Folders + Drop> {
    trees: Trees<F>,
    homes: Vec<Home>,
    calls: u64,
    faults: Faults,
}

impl<F: Folders + Drop> Model for DirForest<F> {
    ghost use Rattle.gt_folder_forest.specs.Forest.{DirCounts};
    ghost use Rattle.std.specs.Prelude.{length, ◌<◌, ◌^◌};

    ghost Value = { DirCounts };

    ghost view = { λ d. record {
      faults = d.faults;
      calls = d.calls;
      collections = length d.homes.items;
    } };

    ghost invariant = { λ d. length d.homes.items < 2 ^ 32 };
}

impl<F: Folders + Drop> DirForest<F> {
    /// The forest of these collections under this root, by these folders, of which none is asked yet.
    pub fn over(
        alloc: Global,
        folders: F,
        root: &str,
        collections: &[Id],
    ) -> Result<DirForest<F>, AllocError>
        requires { length collections.now < 2 ^ 32 }
        ensures { IfOk result (λ forest.
            forest ≡ record { faults = 0; calls = 0; collections = length collections.now }) }
    {
        Ok(DirForest {
            trees: Trees::new(alloc, folders)?,
            homes: homes_of(alloc, root, collections)?,
            calls: 0,
            faults: Faults::new(String::from_str(alloc, root)?),
        })
    }
}

impl<F: Folders + Drop> DirForest<F> {
    /// Removes the staging files that ended runs left in the folders of the collections. Those that another forest has open
    /// stay.
    ///
    /// Where it fails some may have been removed.
    pub fn clear_staging(&mut self, alloc: Global) -> Result<Cleared, TreeFault>
        ensures same { IsSameForest counts_of self.old self.new }
        ensures cause { IsErrOf result TreeFault.Fault → Rose self.old.faults self.new.faults }
        ensures fault { IfErr result (λ fault. IsTrue (may_answer_taking fault)) }
    {
        match clear_all(alloc, &mut self.trees, &self.homes) {
            Ok(cleared) => Ok(cleared),
            Err((home, trouble)) => {
                let spot = home.own_spot();
                Err(answer_taking(&mut self.faults, spot, "the clearing", trouble))
            }
        }
    }
}

// Clears each collection. Where one fails it is told with its trouble.
fn clear_all<'a, F: Folders + Drop>(
    alloc: Global,
    trees: &mut Trees<F>,
    homes: &'a [Home],
) -> Result<Cleared, (&'a Home, Trouble)> {
    let mut cleared = Cleared::nothing();
    for home in homes {
        if let Err(trouble) = trees.clear(alloc, home, &mut cleared) {
            return Err((home, trouble));
        }
    }
    Ok(cleared)
}

impl DirForest<SystemFolders> {
    /// The forest of these collections under this root.
    pub fn new(
        rt: HostRuntime,
        root: &str,
        collections: &[Id],
    ) -> Result<DirForest<SystemFolders>, AllocError>
        requires { length collections.now < 2 ^ 32 }
        ensures { IfOk result (λ forest.
            forest ≡ record { faults = 0; calls = 0; collections = length collections.now }) }
    {
        let alloc = rt.alloc();
        DirForest::over(alloc, SystemFolders::new(rt)?, root, collections)
    }
}

fn homes_of(alloc: Global, root: &str, collections: &[Id]) -> Result<Vec<Home>, AllocError>
    requires { length collections.now < 2 ^ 32 }
    ensures { IfOk result (λ homes. length homes.items ≡ length collections.now) }
{
    let mut homes = Vec::with_capacity(alloc, collections.len())?;
    for i in 0..collections.len() {
        homes.push(home_of(alloc, root, i as u32, &collections[i])?)?;
    }
    Ok(homes)
}

fn home_of(alloc: Global, root: &str, number: u32, id: &Id) -> Result<Home, AllocError> {
    let id = id.print(alloc)?;
    let id = id.as_str();
    Ok(Home {
        number,
        path: format!(in alloc; "{root}/{id}")?,
        lasting: Trail::new(alloc)?,
    })
}

impl<F: Folders + Drop> Forest for DirForest<F> {
    ghost words = { counts_of };

    ghost laws = { untold_laws (λ d. d.faults) (λ d. d.calls) (λ d. d.collections) (λ _. 0) };

    fn faults(&self) -> u64 {
        self.faults.count()
    }

    fn calls(&self) -> u64 {
        self.calls
    }

    fn collections(&self) -> u32 {
        self.homes.len() as u32
    }

    fn stat(&mut self, collection: u32, path: &Path) -> Result<Stat, TreeFault> {
        self.calls = self.calls.saturating_add(1);
        let home = &mut self.homes[collection as usize];
        match self.trees.stat(home, path) {
            Ok(stat) => Ok(stat),
            Err(trouble) => {
                let spot = home.spot(path);
                Err(answer_stat(&mut self.faults, spot, "a look", trouble))
            }
        }
    }

    fn list(
        &mut self,
        alloc: Global,
        collection: u32,
        path: &Path,
        after: Option<&Name>,
        limit: u32,
    ) -> Result<Vec<Entry>, TreeFault> {
        self.calls = self.calls.saturating_add(1);
        let home = &mut self.homes[collection as usize];
        match self.trees.list(alloc, home, path, after, limit) {
            Ok(entries) => Ok(entries),
            Err(trouble) => {
                let spot = home.spot(path);
                Err(answer_taking(&mut self.faults, spot, "a listing", trouble))
            }
        }
    }

    fn read(
        &mut self,
        collection: u32,
        path: &Path,
        at: u64,
        into: &mut [u8],
    ) -> Result<usize, TreeFault> {
        self.calls = self.calls.saturating_add(1);
        let home = &mut self.homes[collection as usize];
        match self.trees.read(home, path, at, into) {
            Ok(n) => Ok(n),
            Err(trouble) => {
                let spot = home.spot(path);
                Err(answer(&mut self.faults, spot, "a read", trouble))
            }
        }
    }

    fn stage_open(&mut self, _alloc: Global, collection: u32, key: u64) -> Result<(), TreeFault> {
        self.calls = self.calls.saturating_add(1);
        let home = &self.homes[collection as usize];
        match self.trees.stage_open(home, key) {
            Ok(()) => Ok(()),
            Err(trouble) => {
                let spot = home.stage_spot(key);
                Err(answer_opening(&mut self.faults, spot, "the making", trouble))
            }
        }
    }

    fn stage_append(
        &mut self,
        _alloc: Global,
        collection: u32,
        key: u64,
        bytes: &[u8],
    ) -> Result<(), TreeFault> {
        self.calls = self.calls.saturating_add(1);
        let home = &self.homes[collection as usize];
        match self.trees.stage_append(home, key, bytes) {
            Ok(()) => Ok(()),
            Err(trouble) => {
                let spot = home.stage_spot(key);
                Err(answer_taking(&mut self.faults, spot, "a write", trouble))
            }
        }
    }

    fn stage_place(
        &mut self,
        _alloc: Global,
        collection: u32,
        key: u64,
        path: &Path,
        mtime: Moment,
    ) -> Result<(), TreeFault> {
        self.calls = self.calls.saturating_add(1);
        let home = &mut self.homes[collection as usize];
        match self.trees.stage_place(home, key, path, mtime) {
            Ok(()) => Ok(()),
            Err(trouble) => {
                let spot = home.spot(path);
                Err(answer_taking(&mut self.faults, spot, "the placing", trouble))
            }
        }
    }

    fn stage_drop(&mut self, collection: u32, key: u64) -> Result<(), TreeFault> {
        self.calls = self.calls.saturating_add(1);
        let home = &self.homes[collection as usize];
        match self.trees.stage_drop(home, key) {
            Ok(()) => Ok(()),
            Err(trouble) => {
                let spot = home.stage_spot(key);
                Err(answer(&mut self.faults, spot, "the removal", trouble))
            }
        }
    }

    fn make_dir(&mut self, _alloc: Global, collection: u32, path: &Path) -> Result<(), TreeFault> {
        self.calls = self.calls.saturating_add(1);
        let home = &mut self.homes[collection as usize];
        match self.trees.make_dir(home, path) {
            Ok(()) => Ok(()),
            Err(trouble) => {
                let spot = home.spot(path);
                Err(answer_taking(&mut self.faults, spot, "the making", trouble))
            }
        }
    }

    fn remove_file(&mut self, collection: u32, path: &Path) -> Result<(), TreeFault> {
        self.calls = self.calls.saturating_add(1);
        let home = &mut self.homes[collection as usize];
        match self.trees.remove_file(home, path) {
            Ok(()) => Ok(()),
            Err(trouble) => {
                let spot = home.spot(path);
                Err(answer(&mut self.faults, spot, "the removal", trouble))
            }
        }
    }

    fn remove_dir(&mut self, collection: u32, path: &Path) -> Result<(), TreeFault> {
        self.calls = self.calls.saturating_add(1);
        let home = &mut self.homes[collection as usize];
        match self.trees.remove_dir(home, path) {
            Ok(()) => Ok(()),
            Err(trouble) => {
                let spot = home.spot(path);
                Err(answer_emptying(&mut self.faults, spot, "the removal", trouble))
            }
        }
    }
}

/// For the proof: a forest that a thread comes to own crosses to it, and back.
pub fn send_forest<R: Threads>(
    rt: &R,
    forest: DirForest<SystemFolders>,
) -> DirForest<SystemFolders> {
    let (forest, ()) = join(rt, move || forest, || ());
    forest
}
