ghost use Rattle.std.specs.Option.{option_copied};
ghost use Rattle.std.specs.Prelude.{◌≡◌, ◌≤◌, ◌<◌, ◌^◌, IfErr, IfOk, IsTrue, None, Some, length, take};
ghost use Rattle.std.specs.Result.{result_map_both};
ghost use Rattle.gt_forest.specs.Answers.{IsBounded, may_answer, may_answer_emptying, may_answer_opening, may_answer_stat, may_answer_taking};
ghost use Rattle.gt_forest.specs.Calls.{ListAnswer, MakeDirAnswer, ReadAnswer, RemoveDirAnswer, RemoveFileAnswer, StageAppendAnswer, StageDropAnswer, StageOpenAnswer, StagePlaceAnswer, StatAnswer};
ghost use Rattle.gt_forest.specs.Listing.{IsInOrder};
ghost use Rattle.gt_forest.specs.Words.{ForestLaws, ForestWords, IsCounted, IsSameForest, LeavesAt, LeavesNoMore, OnTold};

use crate::fault::TreeFault;
use gt_paths::{Name, Path};
use gt_types::{Entry, Stat};
use gt_values::Moment;
use std::alloc::Global;

/// The trees of all collections, which are numbered from 0. Places and sizes are in bytes.
///
/// Of every forest it holds that each call is counted, that `Fault` comes only where it is counted too, that a listing
/// rises, and which refusals a call may answer. What the trees hold is told by forests in memory, and isn't by real
/// ones: such clauses have the premise that the forest is told. Then `Denied`, `NotFound`, `WrongKind` and `NotEmpty`
/// come exactly where they should, the first of them in this order; a call leaves all paths and staging files that it
/// doesn't name as they were; and a call that is refused, or has no memory, changes nothing.
///
/// What a call did to a path lasts once it answered `Ok`: a stop at any later moment leaves it there.
pub trait Forest {
    /// All that is said of it.
    ghost words: { ForestWords Self };

    /// The count of faults.
    fn faults(&self) -> u64
        ensures { result ≡ words.faults self.now };

    /// The count of calls.
    fn calls(&self) -> u64
        ensures { result ≡ words.calls self.now };

    /// How many collections there are. No call changes it.
    fn collections(&self) -> u32
        ensures { result ≡ words.collections self.now };

    /// What stands at a path: its kind, its size in bytes (0 for a folder), and when it was last written.
    fn stat(&mut self, collection: u32, path: &Path) -> Result<Stat, TreeFault>
        requires { collection < words.collections self.old }
        ensures same { IsSameForest words self.old self.new }
        ensures cause { IsCounted words self.old result self.new }
        ensures fault { IfErr result (λ fault. IsTrue (may_answer_stat fault)) }
        ensures room { IfOk result (λ stat. IsBounded stat) }
        ensures told { OnTold words self.old self.new (StatAnswer collection path.now result) }
        ensures images { LeavesNoMore words self.old self.new };

    /// The first `limit` entries of a folder after the name `after`, which need not be there, in the order of the names'
    /// bytes. `WrongKind` on a file.
    fn list(
        &mut self,
        alloc: Global,
        collection: u32,
        path: &Path,
        after: Option<&Name>,
        limit: u32,
    ) -> Result<Vec<Entry>, TreeFault>
        requires { collection < words.collections self.old }
        ensures same { IsSameForest words self.old self.new }
        ensures cause { IsCounted words self.old result self.new }
        ensures fault { IfErr result (λ fault. IsTrue (may_answer_taking fault)) }
        ensures ok { IfOk result
            (λ entries. IsInOrder (option_copied after.entry) limit entries.items) }
        ensures told { OnTold words self.old self.new
            (ListAnswer collection path.now (option_copied after.entry) limit
            (result_map_both (λ entries. entries.items) (λ fault. fault) result)) }
        ensures images { LeavesNoMore words self.old self.new };

    /// Puts the bytes of a file from the place `at` on into the front of `into`, and says how many: as many as there are,
    /// and at most the length of `into`. What stands behind them in `into` isn't said. `WrongKind` on a folder.
    fn read(
        &mut self,
        collection: u32,
        path: &Path,
        at: u64,
        into: &mut [u8],
    ) -> Result<usize, TreeFault>
        requires { collection < words.collections self.old }
        ensures same { IsSameForest words self.old self.new }
        ensures cause { IsCounted words self.old result self.new }
        ensures fault { IfErr result (λ fault. IsTrue (may_answer fault)) }
        ensures room { IfOk result (λ n. (n ≤ length into.old) × (n < 2 ^ 64)) }
        ensures told { OnTold words self.old self.new
            (ReadAnswer collection path.now at (length into.old)
            (result_map_both (λ n. take n into.new) (λ fault. fault) result)) }
        ensures images { LeavesNoMore words self.old self.new };

    /// An empty staging file under this key; an older one is gone.
    fn stage_open(&mut self, alloc: Global, collection: u32, key: u64) -> Result<(), TreeFault>
        requires { collection < words.collections self.old }
        ensures same { IsSameForest words self.old self.new }
        ensures cause { IsCounted words self.old result self.new }
        ensures fault { IfErr result (λ fault. IsTrue (may_answer_opening fault)) }
        ensures told { OnTold words self.old self.new (StageOpenAnswer collection key result) }
        ensures images { LeavesAt words self.old collection None (Some key) result self.new };

    /// Adds bytes to the end of a staging file. It is longer by as many bytes, and by these bytes where the forest is
    /// faithful. After `Fault` it may hold any bytes. `NotFound` where there is no such staging file.
    fn stage_append(
        &mut self,
        alloc: Global,
        collection: u32,
        key: u64,
        bytes: &[u8],
    ) -> Result<(), TreeFault>
        requires { collection < words.collections self.old }
        ensures same { IsSameForest words self.old self.new }
        ensures cause { IsCounted words self.old result self.new }
        ensures fault { IfErr result (λ fault. IsTrue (may_answer_taking fault)) }
        ensures told { OnTold words self.old self.new
            (StageAppendAnswer collection key bytes.now result) }
        ensures images { LeavesAt words self.old collection None (Some key) result self.new };

    /// Makes the path a file with the bytes of a staging file and this time, in place of an older file; the staging file
    /// is gone. `NotFound` where there is no such staging file, or the folder that the path is in isn't there;
    /// `WrongKind` where the path is a folder. After `Ok` the file lasts. After `Fault` it is done or it isn't.
    fn stage_place(
        &mut self,
        alloc: Global,
        collection: u32,
        key: u64,
        path: &Path,
        mtime: Moment,
    ) -> Result<(), TreeFault>
        requires { collection < words.collections self.old }
        ensures same { IsSameForest words self.old self.new }
        ensures cause { IsCounted words self.old result self.new }
        ensures fault { IfErr result (λ fault. IsTrue (may_answer_taking fault)) }
        ensures told { OnTold words self.old self.new
            (StagePlaceAnswer collection key path.now mtime result) }
        ensures images { LeavesAt words self.old collection (Some path.now)
            (Some key) result self.new };

    /// Takes a staging file away. `NotFound` where there is none. After `Fault` it is done or it isn't.
    fn stage_drop(&mut self, collection: u32, key: u64) -> Result<(), TreeFault>
        requires { collection < words.collections self.old }
        ensures same { IsSameForest words self.old self.new }
        ensures cause { IsCounted words self.old result self.new }
        ensures fault { IfErr result (λ fault. IsTrue (may_answer fault)) }
        ensures told { OnTold words self.old self.new (StageDropAnswer collection key result) }
        ensures images { LeavesAt words self.old collection None (Some key) result self.new };

    /// Makes an empty folder of the time 0. `NotFound` where the folder that the path is in isn't there, `WrongKind` where
    /// anything stands at the path. After `Ok` the folder lasts. After `Fault` it is done or it isn't.
    fn make_dir(&mut self, alloc: Global, collection: u32, path: &Path) -> Result<(), TreeFault>
        requires { collection < words.collections self.old }
        ensures same { IsSameForest words self.old self.new }
        ensures cause { IsCounted words self.old result self.new }
        ensures fault { IfErr result (λ fault. IsTrue (may_answer_taking fault)) }
        ensures told { OnTold words self.old self.new (MakeDirAnswer collection path.now result) }
        ensures images { LeavesAt words self.old collection (Some path.now) None result self.new };

    /// Removes a file. `WrongKind` on a folder. After `Ok` it stays gone. After `Fault` it is done or it isn't.
    fn remove_file(&mut self, collection: u32, path: &Path) -> Result<(), TreeFault>
        requires { collection < words.collections self.old }
        ensures same { IsSameForest words self.old self.new }
        ensures cause { IsCounted words self.old result self.new }
        ensures fault { IfErr result (λ fault. IsTrue (may_answer fault)) }
        ensures told { OnTold words self.old self.new
            (RemoveFileAnswer collection path.now result) }
        ensures images { LeavesAt words self.old collection (Some path.now) None result self.new };

    /// Removes an empty folder. `Denied` also at the root, `WrongKind` on a file, `NotEmpty` on a folder with entries.
    /// After `Ok` it stays gone. After `Fault` it is done or it isn't.
    fn remove_dir(&mut self, collection: u32, path: &Path) -> Result<(), TreeFault>
        requires { collection < words.collections self.old }
        ensures same { IsSameForest words self.old self.new }
        ensures cause { IsCounted words self.old result self.new }
        ensures fault { IfErr result (λ fault. IsTrue (may_answer_emptying fault)) }
        ensures told { OnTold words self.old self.new (RemoveDirAnswer collection path.now result) }
        ensures images { LeavesAt words self.old collection (Some path.now) None result self.new };

    /// What joins these words where the forest is told.
    ghost laws: { ForestLaws words };
}
